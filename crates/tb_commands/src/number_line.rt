//! A line that ends in a number.
ghost use Rattle.std.specs.Prelude.{◌≡◌, ◌≤◌, ◌∷◌, ◌++◌, [], length, OnOk, OnErr};
ghost use Rattle.std.specs.Fmt.{decimal};
ghost use Rattle.tb_units.specs.Bytes.{line_feed};
ghost use Rattle.tb_link.specs.Sinks.{Takes, FailsToTake};

use crate::ending::{push_text, text};
use crate::notice::Notice;
use tb_link::{Failed, Sink};
use tb_units::Short;

/// A line with a number behind this text.
pub(crate) fn number_line(what: &[u8], number: u64) -> Notice
    // A number has 20 digits at most, and a notice 64 bytes.
    requires { length what.now ≤ 43 }
    ensures { result ≡ what.now ++ decimal number ++ line_feed ∷ [] }
{
    let mut line = text(what);
    push_text(&mut line, Short::whole(number as u128).bytes());
    line.push(b'\n');
    line
}

/// Writes a line with a number behind this text, in one write.
pub fn tell_count<O: Sink>(what: &[u8], number: u64, out: &mut O) -> Result<(), Failed>
    requires { length what.now ≤ 9 }
    ensures takes { OnOk result
        (Takes (O.sink out.old) (O.sink out.new) (what.now ++ decimal number ++ line_feed ∷ [])) }
    ensures fails { OnErr result
        (FailsToTake (O.sink out.old) (O.sink out.new) (what.now ++ decimal number ++ line_feed ∷ [])) }
{
    out.write(number_line(what, number).bytes())
}
