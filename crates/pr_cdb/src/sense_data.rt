//! Sense data in fixed format.

ghost use Rattle.std.specs.Prelude.{◌≡◌, ◌<◌, Some};
ghost use Rattle.pr_cdb.specs.ReplyData.{sense_bytes};
ghost use Rattle.pr_cdb.specs.ReadBack.{sense_in};

use crate::codes::{ADDITIONAL_SENSE_LENGTH, FIXED_FORMAT, FIXED_SENSE_LENGTH};
use crate::reply::Sense;

/// The bytes of a sense in fixed format (SPC-4, 'Fixed format sense data').
///
/// The sense key has four bits.
pub fn encode_sense(sense: &Sense) -> [u8; FIXED_SENSE_LENGTH]
    ensures bytes { result ≡ sense_bytes sense.now }
    ensures read_again { sense.now.key < 16 → sense_in result ≡ Some sense.now }
{
    sense_written(sense)
}

#[tactic(auto, unfolding(crate::specs::ReplyData::sense_bytes))]
fn sense_written(sense: &Sense) -> [u8; FIXED_SENSE_LENGTH]
    ensures { result ≡ sense_bytes sense.now }
{
    let mut data = [0; FIXED_SENSE_LENGTH];
    data[0] = FIXED_FORMAT;
    data[2] = sense.key & 0x0f;
    data[7] = ADDITIONAL_SENSE_LENGTH;
    data[12] = sense.asc;
    data[13] = sense.ascq;
    data
}

/// What sense data in fixed format reports: `None` where fewer than 14 bytes are there, or the low seven
/// bits of the first are not 70h (SPC-4, 'Fixed format sense data').
#[tactic(auto, unfolding(crate::specs::ReadBack::sense_in))]
pub fn decode_sense(bytes: &[u8]) -> Option<Sense>
    ensures { result ≡ sense_in bytes.now }
{
    if bytes.len() < 14 || bytes[0] & 0x7f != FIXED_FORMAT {
        return None;
    }
    Some(Sense {
        key: bytes[2] & 0x0f,
        asc: bytes[12],
        ascq: bytes[13],
    })
}
