// The charge call's answer in print.
use charge::Charged;
use std::io::{Eprint, Print};
use testbench::{show_refusal, show_text, show_totals, show_word};

pub(crate) fn show_charged(rt: &(impl Print + Eprint), answer: Charged) {
    match answer {
        Ok(drawn) => {
            show_totals(rt, drawn.totals);
            show_charge(rt, drawn.charge);
        }
        Err(refusal) => show_refusal(rt, refusal),
    }
}

// The digits of the charge's bits. An accepted call draws no NaN, but that is not promised here, and `to_bits` says nothing of one.
fn show_charge(rt: &(impl Print + Eprint), charge: f64) {
    if charge.is_nan() {
        show_text(rt, b" nan");
        return;
    }
    show_text(rt, b" ");
    show_word(rt, f64::to_bits(charge));
}
