//! Scripts, and the machine that runs one: which command it sends next, and what it goes on with after a
//! reply.
//!
//! Contracts see a [`Script`] as the tree of its statements, and a [`Machine`] as its configuration: the
//! list of what is still to do.
//!
//! Worked examples stand in `tests/vectors`.
#![tactic(auto)]

mod advance;
mod compile;
mod counts;
mod depth;
mod digits;
mod grammar;
mod landing;
mod laws;
pub mod limits;
mod machine;
mod matching;
mod names;
mod next;
mod program;
mod rows;
mod script;
mod sizes;
mod versions;

pub use depth::repeat_depth;
pub use digits::{byte_of, digit_of, digit_value};
pub use grammar::{
    WRITTEN_LENGTH, is_declared, is_test_declared, is_written, is_written_key, stands_under,
    test_fits,
};
pub use landing::{Class, Landing};
pub use laws::{cost_bounds_sends, fitting_is_shallow, limits_agree, settles};
pub use machine::Machine;
pub use names::is_name;
pub use next::{Next, NoArm};
pub use program::{Position, Program, end_word};
pub use script::{Arm, Script, Statement, Test, Word};
pub use sizes::cost;
