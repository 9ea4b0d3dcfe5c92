// The walk on plain bytes and a place: the record there, and the place behind it. One walk for both versions.
ghost use Rattle.std.specs.Prelude.{◌≡◌, ◌+◌, ◌≤◌, length};
ghost use Rattle.statement.specs.declared.Version.TheVariants.{Plain};
ghost use Rattle.statement.specs.Files.{record_width};
ghost use Rattle.statement.specs.Walking.{payout_at, reasoned_at, ended, any_step, place_after, step_at, any_step_at, any_place_after};

use crate::looking::coefficient_at;
use crate::numbers::number_at;
use crate::{Payout, Reasoned, TRAILER, Version};

fn payout_at(bytes: &[u8], at: usize) -> Payout
    requires { at + 16 ≤ length bytes.now }
    ensures { result ≡ payout_at bytes.now at }
{
    Payout {
        place: number_at(bytes, at, 2) as u16,
        currency: number_at(bytes, at + 2, 2) as u16,
        coefficient: coefficient_at(bytes, at),
    }
}

// The same with its code.
fn reasoned_at(bytes: &[u8], version: Version, at: usize) -> Reasoned
    requires { at + record_width version ≤ length bytes.now }
    ensures { result ≡ reasoned_at version bytes.now at }
{
    Reasoned {
        payout: payout_at(bytes, at),
        reason: number_at(bytes, at + 16, version.code_bytes()) as u16,
    }
}

// Whether no whole record stands at a place before the trailer.
fn is_ended(width: usize, long: usize, at: usize) -> bool
    requires { width ≤ 24 }
    ensures { result ≡ ended width long at }
{
    if long < width + TRAILER {
        return true;
    }
    long - (width + TRAILER) < at
}

// The record at a place, or none behind the last.
#[tactic(auto, unfolding(crate::specs::Walking::any_step))]
fn any_step(bytes: &[u8], version: Version, at: usize) -> Option<Reasoned>
    ensures { result ≡ any_step version bytes.now at }
{
    if is_ended(version.width(), bytes.len(), at) {
        return None;
    }
    Some(reasoned_at(bytes, version, at))
}

// The place behind the record at a place; a walk that has ended stays where it is.
#[tactic(auto, unfolding(crate::specs::Walking::place_after))]
fn any_place(bytes: &[u8], version: Version, at: usize) -> usize
    ensures { result ≡ place_after version bytes.now at }
{
    let width = version.width();
    if is_ended(width, bytes.len(), at) {
        return at;
    }
    at + width
}

// The walk over records of version 1. The C interface has calls for it beside those for either version.
#[tactic(auto, unfolding(crate::specs::Walking::step_at))]
pub fn step_at(bytes: &[u8], at: usize) -> Option<Payout>
    ensures { result ≡ step_at bytes.now at }
{
    if is_ended(Version::Plain.width(), bytes.len(), at) {
        return None;
    }
    Some(payout_at(bytes, at))
}

pub fn place_after(bytes: &[u8], at: usize) -> usize
    ensures { result ≡ place_after Plain bytes.now at }
{
    any_place(bytes, Version::Plain, at)
}

// The walk over records of the version with this number; of any other there are none, and the place stays. Each version is named, so that its
// widths are constants of the compiled walk.
#[tactic(auto, unfolding(crate::specs::Walking::any_step_at))]
pub fn any_step_at(bytes: &[u8], version: u16, at: usize) -> Option<Reasoned>
    ensures { result ≡ any_step_at bytes.now version at }
{
    match Version::try_from(version) {
        Ok(Version::Plain) => any_step(bytes, Version::Plain, at),
        Ok(Version::Reasons) => any_step(bytes, Version::Reasons, at),
        Err(_) => None,
    }
}

#[tactic(auto, unfolding(crate::specs::Walking::any_place_after))]
pub fn any_place_after(bytes: &[u8], version: u16, at: usize) -> usize
    ensures { result ≡ any_place_after bytes.now version at }
{
    match Version::try_from(version) {
        Ok(Version::Plain) => any_place(bytes, Version::Plain, at),
        Ok(Version::Reasons) => any_place(bytes, Version::Reasons, at),
        Err(_) => at,
    }
}
