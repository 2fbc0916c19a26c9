// The lines of the output on lists that are not of a search: what the checker says of each.
ghost use Rattle.std.specs.Prelude.{◌≤◌};

use second_solver::Refusal;
use std::io;
use std::io::Write;
use trials::splits;

fn checked(answer: Result<(), Refusal>, out: &mut impl Write) -> io::Result<()> {
    match answer {
        Ok(()) => writeln!(out, ": passed"),
        Err(Refusal { check, place }) => writeln!(out, ": refused {check} {place}"),
    }
}

// A ground that names a withdrawn condition.
pub fn ground_of_withdrawn(out: &mut impl Write) -> io::Result<()> {
    write!(out, "ground of a withdrawn condition")?;
    checked(splits::ground_of_withdrawn(), out)
}

// A ground that names condition 0: unlike lot 0, there is none.
pub fn ground_of_zero(out: &mut impl Write) -> io::Result<()> {
    write!(out, "ground of condition 0")?;
    checked(splits::ground_of_zero(), out)
}

// A split of these lots, for a sheet that has none but lot 0.
pub fn split(a: u16, b: u16, out: &mut impl Write) -> io::Result<()> {
    write!(out, "split of lots {a} and {b} where n is 0")?;
    checked(splits::split_of(a, b), out)
}

// A list with so many splits on a path.
pub fn splits(s: u16, out: &mut impl Write) -> io::Result<()>
    requires { s ≤ 1025 }
{
    write!(out, "splits on a path {s}")?;
    checked(splits::splits_on_a_path(s), out)
}
