//! The text of an answer. Each function appends to the answers.

ghost use Rattle.std.specs.Prelude.{◌≡◌, ◌++◌, codes, decimal, Ok, OnOk};
ghost use Rattle.cmd_size.specs.SizeFaults.{size_fault};
ghost use Rattle.cmd_size.specs.SizeText.{advice_text, advised_text, bucket_text, contract_text, kind_name, percent_text, rate_text, rates_text, second_bucket_text, second_rate_text, sizes_text, tick_in_units};

use crate::advice::{better_tick, is_above};
use crate::fault::{SizeFault, name_of};
use crate::figures::{Figures, Sustained, VbrKind};
use crate::sizing::{SizedRate, Sizes};
use text_io::Added;
use text_words::{add_number, add_text};

/// Appends the answer to a line with a fault.
#[tactic(auto, using(std::proofs::lemmas::List::append_assoc))]
pub fn add_size_fault(answers: &mut Vec<u8>, fault: SizeFault) -> Added
    ensures { OnOk result (answers.new.items ≡ answers.old.items ++ size_fault fault) }
{
    add_text(answers, b"fault size ")?;
    add_text(answers, name_of(fault).as_bytes())?;
    add_text(answers, b"\n")
}

/// Returns the name of the kind of a contract, and a colon.
fn kind_of(sustained: Option<Sustained>) -> &'static [u8]
    ensures { result.now ≡ kind_name sustained }
{
    let Some(asked) = sustained else {
        return b"cbr1:";
    };
    match asked.kind {
        VbrKind::Vbr1 => b"vbr1:",
        VbrKind::Vbr2 => b"vbr2:",
        VbrKind::Vbr3 => b"vbr3:",
    }
}

/// Appends a bucket.
#[tactic(auto, using(std::proofs::lemmas::List::append_assoc))]
fn add_bucket(answers: &mut Vec<u8>, rate: SizedRate) -> Added
    ensures { OnOk result (answers.new.items ≡ answers.old.items ++ bucket_text rate) }
{
    add_number(answers, rate.increment)?;
    add_text(answers, b"/")?;
    add_number(answers, rate.limit)
}

/// Appends the bucket of the sustained rate.
#[tactic(auto, using(std::proofs::lemmas::List::append_assoc))]
fn add_second_bucket(answers: &mut Vec<u8>, sustained: Option<SizedRate>) -> Added
    ensures { OnOk result (answers.new.items ≡ answers.old.items ++ second_bucket_text sustained) }
{
    let Some(rate) = sustained else {
        return Ok(());
    };
    add_text(answers, b":")?;
    add_bucket(answers, rate)
}

/// Appends the contract as `setup` takes it.
#[tactic(auto, using(std::proofs::lemmas::List::append_assoc))]
fn add_contract(answers: &mut Vec<u8>, figures: Figures, sizes: Sizes) -> Added
    ensures { OnOk result (answers.new.items ≡ answers.old.items ++ contract_text figures sizes) }
{
    add_text(answers, kind_of(figures.sustained))?;
    add_bucket(answers, sizes.peak)?;
    add_second_bucket(answers, sizes.sustained)
}

/// Appends hundredths of a percent, with two decimals.
#[tactic(auto, using(std::proofs::lemmas::List::append_assoc))]
fn add_percent(answers: &mut Vec<u8>, hundredths: u64) -> Added
    ensures { OnOk result (answers.new.items ≡ answers.old.items ++ percent_text hundredths) }
{
    add_number(answers, hundredths / 100)?;
    add_text(answers, b".")?;
    add_number(answers, hundredths / 10 % 10)?;
    add_number(answers, hundredths % 10)?;
    add_text(answers, b"%")
}

/// Appends the rate that a bucket polices, and by how much it is above the one asked for.
#[tactic(auto, using(std::proofs::lemmas::List::append_assoc))]
fn add_rate(answers: &mut Vec<u8>, rate: SizedRate) -> Added
    ensures { OnOk result (answers.new.items ≡ answers.old.items ++ rate_text rate) }
{
    add_number(answers, rate.policed)?;
    add_text(answers, b" +")?;
    add_percent(answers, rate.distance)
}

/// Appends the rate that the bucket of the sustained rate polices, and by how much it is above the one asked for.
#[tactic(auto, using(std::proofs::lemmas::List::append_assoc))]
fn add_second_rate(answers: &mut Vec<u8>, sustained: Option<SizedRate>) -> Added
    ensures { OnOk result (answers.new.items ≡ answers.old.items ++ second_rate_text sustained) }
{
    let Some(rate) = sustained else {
        return Ok(());
    };
    add_text(answers, b" scr ")?;
    add_rate(answers, rate)
}

/// Appends the rates that the buckets police.
#[tactic(auto, using(std::proofs::lemmas::List::append_assoc))]
fn add_rates(answers: &mut Vec<u8>, sizes: Sizes) -> Added
    ensures { OnOk result (answers.new.items ≡ answers.old.items ++ rates_text sizes) }
{
    add_text(answers, b" pcr ")?;
    add_rate(answers, sizes.peak)?;
    add_second_rate(answers, sizes.sustained)
}

/// Appends a number and its unit.
#[tactic(auto, using(std::proofs::lemmas::List::append_assoc))]
fn add_units(answers: &mut Vec<u8>, count: u64, unit: &[u8]) -> Added
    ensures { OnOk result (answers.new.items ≡ answers.old.items ++ (decimal count ++ unit.now)) }
{
    add_number(answers, count)?;
    add_text(answers, unit)
}

/// Appends a tick.
fn add_tick(answers: &mut Vec<u8>, tick: u64) -> Added
    ensures { OnOk result (answers.new.items ≡ answers.old.items ++ tick_in_units tick) }
{
    if tick >= 1000000000 {
        return add_units(answers, tick / 1000000000, b"s");
    }
    if tick >= 1000000 {
        return add_units(answers, tick / 1000000, b"ms");
    }
    if tick >= 1000 {
        return add_units(answers, tick / 1000, b"us");
    }
    add_units(answers, tick, b"ns")
}

/// Appends the tick that is advised.
fn add_advised(answers: &mut Vec<u8>, tick: Option<u64>) -> Added
    ensures { OnOk result (answers.new.items ≡ answers.old.items ++ advised_text tick) }
{
    match tick {
        Some(tick) => add_tick(answers, tick),
        None => add_text(answers, b"none"),
    }
}

/// Appends the tick that is advised, if a rate is coarse.
#[tactic(auto, using(std::proofs::lemmas::List::append_assoc))]
fn add_advice(answers: &mut Vec<u8>, figures: Figures, sizes: Sizes) -> Added
    ensures { OnOk result (answers.new.items ≡ answers.old.items ++ advice_text figures sizes) }
{
    if !is_above(sizes) {
        return Ok(());
    }
    add_text(answers, b" coarse ")?;
    add_advised(answers, better_tick(figures))
}

/// Appends the answer to a contract that has these buckets.
#[tactic(auto, using(std::proofs::lemmas::List::append_assoc))]
pub fn add_sizes(answers: &mut Vec<u8>, figures: Figures, sizes: Sizes) -> Added
    ensures { OnOk result (answers.new.items ≡ answers.old.items ++ sizes_text figures (Ok sizes)) }
{
    add_contract(answers, figures, sizes)?;
    add_rates(answers, sizes)?;
    add_advice(answers, figures, sizes)?;
    add_text(answers, b"\n")
}
