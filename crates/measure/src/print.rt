// The sizes in print. The texts stand here, since a text is costly to check where there is much else. Each function stops where it
// cannot write on, which standard error then says.
use circuit::InputsAndGates;
use method::Totals;
use std::io::{Eprint, Print, Result};

pub(crate) fn show_refused(rt: &(impl Print + Eprint), number: u8) -> Result<()> {
    show(rt, b"refused ", u64::from(number))?;
    end_line(rt)
}

// The totals of a circuit with so many inputs and gates, and the lengths of areas that just fit it. The directory has a pair for
// each net.
pub(crate) fn show_sizes(
    rt: &(impl Print + Eprint),
    totals: Totals,
    nets: InputsAndGates,
) -> Result<()> {
    show_totals(rt, totals)?;
    show_areas(
        rt,
        totals,
        2 * (u64::from(nets.inputs) + u64::from(nets.gates)),
    )
}

fn show_totals(rt: &(impl Print + Eprint), totals: Totals) -> Result<()> {
    show(rt, b"frames ", u64::from(totals.frames))?;
    show(rt, b"\nfan-in entries ", u64::from(totals.fanins))?;
    show(rt, b"\nlast time ", u64::from(totals.last.0))?;
    end_line(rt)
}

fn show_areas(rt: &(impl Print + Eprint), totals: Totals, directory: u64) -> Result<()> {
    let frames = u64::from(totals.frames);
    show(rt, b"areas: directory ", directory)?;
    show(rt, b", times ", frames)?;
    show(rt, b", inertial ", frames)?;
    show(rt, b", fan-in ", u64::from(totals.fanins))?;
    show(rt, b", values ", frames)?;
    end_line(rt)
}

// A text, and a number behind it.
fn show(rt: &(impl Print + Eprint), text: &[u8], number: u64) -> Result<()> {
    streams::write_output(rt, text)?;
    streams::write_decimal(rt, number)
}

fn end_line(rt: &(impl Print + Eprint)) -> Result<()> {
    streams::write_output(rt, b"\n")
}
