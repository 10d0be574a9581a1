// The whole of the program but its reading and writing: from an input's bytes to an output's.
#![tactic(auto)]

ghost use Rattle.std.specs.Prelude.{◌≡◌};
ghost use Rattle.exchange.specs.Whole.{output_length, output_left};

use kinds::Refused;

// Answers an input in an output slice of at least 9,038 bytes, and returns how many of them it wrote. A shorter slice is left as it is, and 0 is returned.
// kept: that 0, as `output_length` and the theorems on it say.
pub fn answer(input: &[u8], output: &mut [u8]) -> usize
    ensures value { result ≡ output_length input.now output.old }
    ensures output_after { output.new ≡ output_left input.now output.old }
{
    if output.len() < 9038 {
        return 0;
    }
    let mut first = [0u8; 16384];
    let mut second = [0u8; 16384];
    match input::read_input(input, &mut first, &mut second) {
        Ok(read) => output::answer_job(
            read.settings,
            &first[..read.first],
            &second[..read.second],
            output,
        ),
        Err(bad) => {
            let refused = Refused {
                number: bad.error.number(),
                sequence: 0,
                detail: bad.line,
            };
            output::put_refused(refused, output)
        }
    }
}
