// One line of the program's input, in its turn: what is wrong with it, and what a good one adds to what the lines before it have said.
#![tactic(auto)]

ghost use Rattle.std.specs.Prelude.{◌≡◌, ◌≤◌, length, IfOk};
ghost use Rattle.lines.specs.Errors.{number_in};
ghost use Rattle.readers.specs.Readers.{job_in};
ghost use Rattle.turns.specs.Turns.{job_size, size_number};
ghost use Rattle.turns.specs.States.{turn_number, turn_of, next_turn, StateSafe, LineTaken};

use kinds::Kind;
use lines::FrameError;
use rules::Settings;

// What may come next: the job; a piece of the first sequence, one of the second or the end; the same but for the first sequence; nothing.
#[derive(Clone, Copy, Debug, PartialEq, Eq)]
enum Turn {
    Job,
    First,
    Second,
    Ended,
}

impl Turn {
    // The turn of a state's number: past the end nothing comes, whatever the number is.
    fn of(number: u64) -> Turn
        ensures { result ≡ turn_of number }
    {
        match number {
            0 => Turn::Job,
            1 => Turn::First,
            2 => Turn::Second,
            _ => Turn::Ended,
        }
    }

    fn number(self) -> u64
        ensures { result ≡ turn_number self }
    {
        match self {
            Turn::Job => 0,
            Turn::First => 1,
            Turn::Second => 2,
            Turn::Ended => 3,
        }
    }

    // 23 and 24: what may come after a frame of a kind. A job comes first, then pieces of the first sequence, those of the second and the end. Nothing comes
    // after the end.
    fn after(self, kind: Kind) -> Result<Turn, FrameError>
        ensures { result ≡ next_turn self kind }
    {
        match (kind, self) {
            (Kind::Job, Turn::Job) | (Kind::FirstPiece, Turn::First) => Ok(Turn::First),
            (Kind::SecondPiece, Turn::First | Turn::Second) => Ok(Turn::Second),
            (Kind::End, Turn::First | Turn::Second) => Ok(Turn::Ended),
            (Kind::Job | Kind::FirstPiece | Kind::SecondPiece | Kind::End, _) => {
                Err(FrameError::OutOfTurn)
            }
            _ => Err(FrameError::WrongKind),
        }
    }
}

// What the lines so far have said: what may come next, the settings and how many letters each sequence has.
// kept: the counts stand here and the lent buffers beside: docs/MAP.md names `pieces::take_piece`, `turns::take_line` and `input::read_input`, which lend slices
// kept: the turn is a number, 0 to 3 as `Turn` tells them: docs/MAP.md names `take_line`, which takes any, and `Progress` of specs/Turns.antt has it so
#[derive(Clone, Copy)]
pub struct State {
    pub turn: u64,
    pub settings: Settings,
    pub first: usize,
    pub second: usize,
}

// The settings of a job of so many payload bytes, which stand in the frame's bytes from place 2 on. One of 7 bytes is forward, and one of 8 ends with the
// strand. A job frame means mask 0.
#[tactic(auto, unfolding(crate::specs::Turns::job_size, crate::specs::Turns::size_number, readers::specs::Readers::job_in, readers::specs::Readers::strand_in))]
fn settings_in(bytes: &[u8], size: usize) -> Result<Settings, FrameError>
    requires { 67 ≤ length bytes.now }
    ensures number { number_in result ≡ size_number (job_size size) }
    ensures value { IfOk result (λ settings. settings ≡ job_in size bytes.now) }
{
    // kept: these casts are proved to lose nothing, a field having one byte or two; u32::try_from would add an Err that never comes
    let strand = match size {
        7 => 0,
        8 => payloads::number_at(bytes, 9, 1) as u32,
        _ => return Err(FrameError::WrongPayload),
    };
    Ok(Settings {
        k: payloads::number_at(bytes, 2, 1) as u32,
        b: payloads::number_at(bytes, 3, 2) as u32,
        a: payloads::number_at(bytes, 5, 2) as u32,
        m: payloads::number_at(bytes, 7, 2) as u32,
        strand,
        mask: 0,
    })
}

// One line more. What it says is in the state and the letters; where it is wrong, the letters are as they were.
pub fn take_line(
    line: &[u8],
    s: State,
    first: &mut [u8],
    second: &mut [u8],
) -> Result<State, FrameError>
    requires { StateSafe s first.old second.old }
    ensures { LineTaken line.now s first.old second.old result first.new second.new }
{
    let mut bytes = [0u8; 67];
    let frame = decoding::read_line(line, &mut bytes)?;
    let kind = Kind::try_from(frame.kind)?;
    let next = Turn::of(s.turn).after(kind)?;
    let turn = next.number();
    let payload = &bytes[2..frame.size + 2];
    match kind {
        Kind::Job => {
            let settings = settings_in(&bytes, frame.size)?;
            Ok(State {
                turn,
                settings,
                ..s
            })
        }
        Kind::FirstPiece => {
            let count = pieces::take_piece(payload, first, s.first)?;
            Ok(State {
                turn,
                first: count,
                ..s
            })
        }
        Kind::SecondPiece => {
            let count = pieces::take_piece(payload, second, s.second)?;
            Ok(State {
                turn,
                second: count,
                ..s
            })
        }
        // an end carries nothing
        _ if payload.is_empty() => Ok(State { turn, ..s }),
        _ => Err(FrameError::WrongPayload),
    }
}
