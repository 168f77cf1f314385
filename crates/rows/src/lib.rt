// The scan of a fibre word's check rows: the lowest that fails.
#![tactic(auto)]

ghost use Rattle.std.specs.Prelude.{◌≡◌, ◌/◌, ◌<◌, length, unwrap_or, IfSome};
ghost use Rattle.rules.specs.Bits.{bit, need};
ghost use Rattle.rules.specs.Matrix.{places, checks, entry};
ghost use Rattle.rules.specs.Table.{fibre};
ghost use Rattle.rules.specs.Terms.{term};
ghost use Rattle.rows.specs.Scan.{Scanned};

use rules::fibre;

// What block column j, whose entry is a, adds to a check row of the word.
fn term_of(word: &[u8], row: usize, j: usize, a: i16) -> u8
    requires { (length word.now ≡ need (places fibre)) × (row < checks fibre) × (j < fibre.columns)
        × (a ≡ entry fibre (row / fibre.size) j) }
    ensures { result ≡ term fibre row (bit word.now) j }
{
    let Ok(turn) = usize::try_from(a) else {
        return 0;
    };
    bits::bit_at(
        word,
        fibre::SIZE * j + (row % fibre::SIZE + turn) % fibre::SIZE,
    )
}

// The lowest failing row of a word: the scan leaves its loops at the first failed check, by a labelled break that
// yields the row, the form that the paper names. For crates above, which show that the word is whole.
pub fn lowest_failing(word: &[u8]) -> Option<usize>
    requires { length word.now ≡ need (places fibre) }
    ensures row { Scanned fibre (bit word.now) (unwrap_or result (checks fibre)) }
    ensures below { IfSome result (λ row. row < checks fibre) }
{
    let table = fibre::table();
    'rows: {
        for row in 0..fibre::CHECKS {
            let i = row / fibre::SIZE;
            let mut ones: usize = 0;
            for (j, line) in table.iter().enumerate() {
                ones += usize::from(term_of(word, row, j, line[i]));
            }
            if ones % 2 == 1 {
                break 'rows Some(row);
            }
        }
        None
    }
}
