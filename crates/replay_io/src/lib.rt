// What every kind of the replay protocol uses: the fields of a case read, the room for an answer made ready, its line put.
#![tactic(auto)]

pub mod input;
pub mod output;

ghost use Rattle.std.specs.Prelude.{◌≡◌, ◌≤◌, replicate};

use crate::input::Input;
use crate::output::Output;
use std::io::Read;

// The longest packet, room or new length of a case.
pub const MOST: usize = 65536;

// What a byte holds before a call where the case does not give it.
pub const UNSET: u8 = 238;

// A case that is none: of an unknown kind, against the protocol, or cut short.
#[derive(Clone, Copy, Debug, PartialEq, Eq)]
pub struct Malformed;

// What a case is answered with: where it comes from, where its line goes, and two buffers of which parts are lent to the calls.
#[derive(Drop)]
pub struct Replay<R> {
    pub input: Input<R>,
    pub out: Output,
    pub work: [u8; MOST],
    pub store: [u8; MOST],
}

impl<R: Read + Drop> Replay<R> {
    pub fn new(from: R) -> Self {
        Replay {
            input: Input::new(from),
            out: Output::new(),
            work: [0; MOST],
            store: [0; MOST],
        }
    }
}

// The room of n bytes that a call is given for its answer.
pub fn room(buffer: &mut [u8; MOST], n: usize) -> &mut [u8]
    requires { n ≤ MOST }
    ensures { result.now ≡ replicate n UNSET }
{
    let room = &mut buffer[..n];
    room.fill(UNSET);
    room
}
