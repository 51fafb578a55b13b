// From one edition of the circuit file to the other: the same circuit, delays as the same numbers.
#![tactic(auto)]

ghost use Rattle.std.specs.Prelude.{◌≡◌, leb};
ghost use Rattle.lists.specs.Outcome.{outcome};
ghost use Rattle.numbers.specs.Numbers.{number_at};
ghost use Rattle.method.specs.Refusals.{on_paper};
ghost use Rattle.editions.specs.Limits.{Writable};
ghost use Rattle.converter.specs.Convert.{present_from, newer_of, older_of, other_of};
ghost use Rattle.converter.specs.Steps.{converted_by};

mod writing;

use editions::{Edition, former, present};
use filing::AREA_LENGTH;
use method::Refusal;
use writing::{delays_up_to, write};

// Bytes 0-1 of this and more say that a file is of the present edition.
const PRESENT_FROM: u16 = 256;

// What converting answers: the length of the file written, or the first "no".
pub type Conversion = Result<u16, Refusal>;

// Writes a file of the former edition into the area as one of the present edition, its rest 0.
pub fn newer(file: &[u8], area: &mut [u8]) -> Conversion
    ensures { outcome (on_paper result) area.new ≡ newer_of file.now area.old }
{
    convert(former(), present(), file, area)
}

// Writes a file of the present edition into the area as one of the former edition, its rest 0.
pub fn older(file: &[u8], area: &mut [u8]) -> Conversion
    ensures { outcome (on_paper result) area.new ≡ older_of file.now area.old }
{
    convert(present(), former(), file, area)
}

// Whether bytes 0-1 say that the file is of the present edition.
pub fn is_present(file: &[u8]) -> bool
    ensures { result ≡ leb present_from (number_at file.now 0) }
{
    PRESENT_FROM <= numbers::number_at(file, 0)
}

// Writes the file into the area in the other edition than its own.
pub fn other(file: &[u8], area: &mut [u8]) -> Conversion
    ensures { outcome (on_paper result) area.new ≡ other_of file.now area.old }
{
    if is_present(file) {
        older(file, area)
    } else {
        newer(file, area)
    }
}

// Both ways in one: 23 is asked on the way to the present edition too, where no accepted file fails it.
fn convert(from: Edition, to: Edition, file: &[u8], area: &mut [u8]) -> Conversion
    requires { Writable to }
    ensures { outcome (on_paper result) area.new ≡ converted_by from to file.now area.old }
{
    let read = editions::read(from, file)?;
    if area.len() != AREA_LENGTH {
        return Err(Refusal::AreaLengths);
    }
    if !delays_up_to(from, to.most, file, read.gates) {
        return Err(Refusal::DelayTooLong);
    }
    Ok(write(from, to, file, read.inputs, read.gates, area))
}
