//! The data that PERSISTENT RESERVE IN returns.

ghost use Rattle.std.specs.Prelude.{◌≡◌, ◌≤◌, Some, length};
ghost use Rattle.pr_cdb.specs.ReplyData.{keys_bytes, keys_in, reservation_bytes, capabilities_bytes, holder_in};
ghost use Rattle.pr_cdb.specs.ReadBack.{holder};
ghost use Rattle.pr_cdb.specs.inside.KeyWidths.{HasKey};

use crate::codes::{
    HEADER_LENGTH, KEY_LENGTH, MOST_DATA_LENGTH, MOST_NEXUSES, RESERVATION_DATA_LENGTH,
    RESERVATION_LENGTH,
};
use crate::command::Kind;
use crate::wire::copied;
use arrayvec::ArrayVec;
use byteorder::{BigEndian, ByteOrder};

/// The data of READ KEYS, whole: the generation, the additional length, and then each key (SPC-4, 'READ
/// KEYS service action').
pub fn keys_data(generation: u32, keys: &[u64]) -> ArrayVec<u8, MOST_DATA_LENGTH>
    requires { length keys.now ≤ MOST_NEXUSES }
    ensures bytes { result.items ≡ keys_bytes generation keys.now }
    ensures read_again { keys_in result.items ≡ keys.now }
{
    keys_written(generation, keys)
}

#[tactic(auto, unfolding(crate::specs::ReplyData::keys_bytes))]
fn keys_written(generation: u32, keys: &[u64]) -> ArrayVec<u8, MOST_DATA_LENGTH>
    requires { length keys.now ≤ MOST_NEXUSES }
    ensures { result.items ≡ keys_bytes generation keys.now }
{
    let mut data = ArrayVec::new();
    let mut header = [0; HEADER_LENGTH];
    BigEndian::write_u32(&mut header, generation);
    BigEndian::write_u32(&mut header[4..], (KEY_LENGTH * keys.len()) as u32);
    let _ = data.try_extend_from_slice(&header);
    for key in keys {
        let mut bytes = [0; KEY_LENGTH];
        BigEndian::write_u64(&mut bytes, *key);
        let _ = data.try_extend_from_slice(&bytes);
    }
    data
}

/// The keys in the data of READ KEYS, of which the end may be cut off: the whole keys that lie
/// within the bytes and within the additional length, at most one for each nexus.
#[tactic(auto, unfolding(crate::specs::ReplyData::keys_in, crate::specs::ReplyData::first_keys, crate::specs::Bytes::be64, crate::specs::Bytes::be32))]
pub fn keys_of(bytes: &[u8]) -> ArrayVec<u64, MOST_NEXUSES>
    ensures { result.items ≡ keys_in bytes.now }
{
    let mut keys = ArrayVec::new();
    if bytes.len() < HEADER_LENGTH {
        return keys;
    }
    let announced = BigEndian::read_u32(&bytes[4..]) as usize / KEY_LENGTH;
    let count = announced
        .min((bytes.len() - HEADER_LENGTH) / KEY_LENGTH)
        .min(MOST_NEXUSES);
    for place in 0..count {
        keys.push(BigEndian::read_u64(&bytes[HEADER_LENGTH + KEY_LENGTH * place..]));
    }
    keys
}

/// The data of READ RESERVATION, whole: the generation, the additional length in bytes, and for a
/// reservation its key and its type, under the scope of the logical unit (SPC-4, 'READ RESERVATION service
/// action').
pub fn reservation_data(
    generation: u32,
    held: Option<(u64, Kind)>,
) -> ArrayVec<u8, RESERVATION_DATA_LENGTH>
    ensures bytes { result.items ≡ reservation_bytes generation held }
    ensures read_again { holder_in result.items ≡ Some (holder held) }
{
    reservation_written(generation, held)
}

#[tactic(auto, unfolding(crate::specs::ReplyData::reservation_bytes))]
fn reservation_written(
    generation: u32,
    held: Option<(u64, Kind)>,
) -> ArrayVec<u8, RESERVATION_DATA_LENGTH>
    ensures bytes { result.items ≡ reservation_bytes generation held }
    ensures fits { HasKey held }
{
    let mut data = [0; RESERVATION_DATA_LENGTH];
    BigEndian::write_u32(&mut data, generation);
    let Some((key, kind)) = held else {
        return copied(&data[..HEADER_LENGTH]);
    };
    data[7] = RESERVATION_LENGTH as u8;
    BigEndian::write_u64(&mut data[HEADER_LENGTH..], key);
    data[21] = kind.code();
    copied(&data)
}

/// The data of REPORT CAPABILITIES, whole: all six types, and no other capability (SPC-4, 'REPORT
/// CAPABILITIES service action').
#[tactic(auto, unfolding(crate::specs::ReplyData::capabilities_bytes))]
pub fn capabilities() -> [u8; 8]
    ensures { result ≡ capabilities_bytes }
{
    [0x00, 0x08, 0x00, 0x80, 0xea, 0x01, 0x00, 0x00]
}

/// What the data of READ RESERVATION says, of which the end may be cut off: `Some(None)` where nothing is
/// reserved, else the key and the byte of scope and type; `None` where these bytes don't tell.
#[tactic(auto, unfolding(crate::specs::ReplyData::holder_in, crate::specs::Bytes::be32, crate::specs::Bytes::be64))]
pub fn holder_of(bytes: &[u8]) -> Option<Option<(u64, u8)>>
    ensures { result ≡ holder_in bytes.now }
{
    if bytes.len() < HEADER_LENGTH {
        return None;
    }
    let length = BigEndian::read_u32(&bytes[4..]);
    if length == 0 {
        return Some(None);
    }
    if bytes.len() < 22 || length < 14 {
        return None;
    }
    Some(Some((BigEndian::read_u64(&bytes[HEADER_LENGTH..]), bytes[21])))
}
