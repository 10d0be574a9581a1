// The fifteen letters, in capitals or masked, their codes and their complements.
#![tactic(auto)]

ghost use Rattle.std.specs.Prelude.{◌≡◌, ◌++◌, ◌≤◌, length, drop};
ghost use Rattle.rules.specs.Letters.{letter_of, read_letter, code_of, bad_place, complement, reverse_complement};
ghost use Rattle.letters.specs.Capitals.{capital_complements, at_capital};
ghost use Rattle.letters.specs.FirstBad.{some_place};

use rules::Letter;

// The bit that lower case has and its capital has not.
const MASK: u8 = 0x20;

// All others. The highest is among them, so that no byte above 127 becomes a letter.
const UNMASKED: u8 = 0xDF;

// The letter of each code. Code 0 has none.
// kept: 0 for none, here and in all that is read below: `letter_of`, `code_of`, `read_letter` and `complement` of rules/specs/Letters.antt say so, and
// the theorems on them.
const LETTERS: [u8; 16] = [
    0, b'A', // 1
    b'C', // 2
    b'M', // 3
    b'G', // 4
    b'R', // 5
    b'S', // 6
    b'V', // 7
    b'T', // 8
    b'W', // 9
    b'Y', // 10
    b'H', // 11
    b'K', // 12
    b'D', // 13
    b'B', // 14
    b'N', // 15
];

// The code of each capital from A to Z, 0 where it is none of the fifteen.
const CODES: [u8; 26] = [
    1, // A
    14, // B
    2, // C
    13, // D
    0, // E
    0, // F
    4, // G
    11, // H
    0, // I
    0, // J
    12, // K
    0, // L
    3, // M
    15, // N
    0, // O
    0, // P
    0, // Q
    5, // R
    6, // S
    8, // T
    0, // U
    7, // V
    9, // W
    0, // X
    10, // Y
    0, // Z
];

// The complement of each capital from A to Z, 0 where it is none of the fifteen.
const COMPLEMENTS: [u8; 26] = [
    b'T', // of A
    b'V', // of B
    b'G', // of C
    b'H', // of D
    0, // of E
    0, // of F
    b'C', // of G
    b'D', // of H
    0, // of I
    0, // of J
    b'M', // of K
    0, // of L
    b'K', // of M
    b'N', // of N
    0, // of O
    0, // of P
    0, // of Q
    b'Y', // of R
    b'S', // of S
    b'A', // of T
    0, // of U
    b'B', // of V
    b'W', // of W
    0, // of X
    b'R', // of Y
    0, // of Z
];

// The letter of a code, 0 where it has none.
pub fn letter(code: u8) -> u8
    ensures { result ≡ letter_of code }
{
    LETTERS.get(usize::from(code)).copied().unwrap_or(0)
}

// The code of a byte, masked or not; 0 where it is no letter.
pub fn code(byte: u8) -> u8
    ensures { result ≡ code_of byte }
{
    let codes = CODES;
    at_capital(&codes, byte & UNMASKED)
}

// A byte as it is read.
pub fn read_letter(byte: u8) -> Letter
    ensures { result ≡ read_letter byte }
{
    let codes = CODES;
    let capital = byte & UNMASKED;
    if at_capital(&codes, capital) == 0 {
        Letter {
            capital: 0,
            masked: false,
        }
    } else {
        Letter {
            capital,
            masked: capital < byte,
        }
    }
}

// What a table of the capitals from A to Z has for a byte, 0 for one that is none of them. The caller laid the table out, once for all its letters.
// kept: a table that is lent and two comparisons. With a `static`, of whose zeros LLVM makes bit tests, `bad_place` takes 1.8 times as long and
// `reverse_complement` 1.3 times; with `is_ascii_uppercase` the first takes 1.5 times.
fn at_capital(table: &[u8; 26], byte: u8) -> u8
    ensures { result ≡ at_capital table.now byte }
{
    if byte < b'A' || b'Z' < byte {
        0
    } else {
        table[usize::from(byte - b'A')]
    }
}

// The first place, counted from 1, whose letter is none of the fifteen.
pub fn bad_place(s: &[u8]) -> Option<usize>
    ensures { result ≡ some_place (bad_place s.now) }
{
    let codes = CODES;
    s.iter()
        .position(|byte| at_capital(&codes, *byte & UNMASKED) == 0)
        .map(|passed| passed + 1)
}

// The complement of a letter, masked where the letter is; 0 of a byte that is none. Read in the table of complements.
fn complement_in(complements: &[u8; 26], byte: u8) -> u8
    requires { complements.now ≡ capital_complements }
    ensures { result ≡ complement byte }
{
    match at_capital(complements, byte & UNMASKED) {
        0 => 0,
        turned => turned | (byte & MASK),
    }
}

// Writes the reverse complement of a sequence, masks kept, in front of a lent slice. One step a letter.
pub fn reverse_complement(s: &[u8], out: &mut [u8])
    requires { length s.now ≤ length out.old }
    ensures { out.new ≡ reverse_complement s.now ++ drop (length s.now) out.old }
{
    let complements = COMPLEMENTS;
    for (turned, byte) in s.iter().rev().enumerate() {
        out[turned] = complement_in(&complements, *byte);
    }
}
