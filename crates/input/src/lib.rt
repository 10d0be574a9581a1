// The program's input: one job, any number of pieces of the first sequence, any number of the second, one end.
#![tactic(auto)]

ghost use Rattle.std.specs.Prelude.{◌≡◌, ◌≤◌, length};
ghost use Rattle.lines.specs.Writing.{in_front};
ghost use Rattle.input.specs.Grammar.{input_read, input_of};

use lines::FrameError;
use rules::Settings;
use turns::State;

// What a good input says: the settings and how many letters each sequence has.
#[derive(Clone, Copy)]
pub struct Input {
    pub settings: Settings,
    pub first: usize,
    pub second: usize,
}

// What is wrong with another, and in which line, counted from 1.
#[derive(Clone, Copy, Debug, PartialEq, Eq)]
pub struct BadLine {
    pub line: u64,
    pub error: FrameError,
}

// What is said before the first line.
const NOTHING_YET: State = State {
    turn: 0,
    settings: Settings {
        k: 0,
        b: 0,
        a: 0,
        m: 0,
        strand: 0,
        mask: 0,
    },
    first: 0,
    second: 0,
};

// Reads a whole input. The letters of the two sequences stand in front of the lent buffers, where the input is wrong those of the good lines before the
// first bad one.
pub fn read_input(input: &[u8], first: &mut [u8], second: &mut [u8]) -> Result<Input, BadLine>
    requires in_bounds { 16384 ≤ length first.old }
    requires in_bounds_2 { 16384 ≤ length second.old }
    ensures value { input_read result ≡ (input_of input.now).answer }
    ensures first_after { first.new ≡ in_front (input_of input.now).first first.old }
    ensures second_after { second.new ≡ in_front (input_of input.now).second second.old }
{
    let mut s = NOTHING_YET;
    let mut line = 1;
    for text in input.split_inclusive(|byte| *byte == b'\n') {
        s = turns::take_line(text, s, first, second).map_err(|error| BadLine { line, error })?;
        line += 1;
    }
    // after the end, as `turns` tells its numbers
    if s.turn == 3 {
        Ok(Input {
            settings: s.settings,
            first: s.first,
            second: s.second,
        })
    } else {
        Err(BadLine {
            line,
            error: FrameError::OutOfTurn,
        })
    }
}
