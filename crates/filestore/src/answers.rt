// An answer as the struct's four numbers.
ghost use Rattle.std.specs.Prelude.{◌≡◌, ◌≤◌};
ghost use Rattle.meaning.specs.Answers.{answered};
ghost use Rattle.filestore.specs.Tells.{four, in_four};

use crate::Told;
use meaning::Report;
use meaning::values::Values;

// An accepted call: 0 and its numbers, of which there are at most three. A refusal: its report with zeros after it.
pub fn tell<const N: usize, T: Values<N>>(answer: Result<T, Report>) -> Told
    requires { N ≤ 3 }
    ensures { four result ≡ in_four (answered N T.numbers answer) }
{
    match answer {
        Ok(value) => {
            let mut told = [0; 3];
            told[..N].copy_from_slice(&value.numbers());
            Told {
                report: 0,
                first: told[0],
                second: told[1],
                third: told[2],
            }
        }
        Err(why) => Told {
            report: u32::from(why),
            first: 0,
            second: 0,
            third: 0,
        },
    }
}
