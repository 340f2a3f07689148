// What is checked before the fields of a payload are read.
// (d): the definitions take version, checksum and payload, which decide: the rest of a frame does not, and the round trips speak of each.
ghost use Rattle.std.specs.Prelude.{◌≡◌, ◌≤◌, length, Ok, OnOk, slice_index};
ghost use Rattle.payloads.specs.Checks.{versioned, opened, within, summed};

use checksum::payload_checksum;
use frames::extent::MOST_SPARE;
use frames::frame::{Question, UserData};
use frames::refusal::Refusal;

// Mode version 1 has 0 in the version field.
pub fn check_version(version: u8) -> Result<(), Refusal>
    ensures { result ≡ versioned version (Ok tt) }
{
    if version != 0 {
        return Err(Refusal::ModeVersion);
    }
    Ok(())
}

// A question of any procedure: the version, and then the checksum over the whole payload.
pub fn check_question(question: Question<'_>) -> Result<(), Refusal>
    ensures { result ≡ opened question.entry.version question.entry.checksum question.entry.payload.now (Ok tt) }
{
    check_version(question.version)?;
    if question.checksum != payload_checksum(question.payload) {
        return Err(Refusal::PayloadChecksum);
    }
    Ok(())
}

// The payload of a control frame has its fields, and after them no more octets of spare extension than may be.
pub fn check_extent(payload: &[u8], fields: usize) -> Result<(), Refusal>
    ensures is { result ≡ within fields payload.now (Ok tt) }
    ensures there { OnOk result (fields ≤ length payload.now) }
{
    if payload.len() < fields {
        return Err(Refusal::TooShort);
    }
    if payload.len() - fields > MOST_SPARE {
        return Err(Refusal::UnexpectedValue);
    }
    Ok(())
}

// The octet of a payload whose fields take no more than one.
pub(crate) fn only_octet(payload: &[u8]) -> Result<u8, Refusal>
    ensures { result ≡ within 1 payload.now (Ok (slice_index payload.now 0)) }
{
    let (octet, extension) = payload.split_first().ok_or(Refusal::TooShort)?;
    check_extent(extension, 0)?;
    Ok(*octet)
}

// User data: the checksum over the whole payload, where the frame has one.
pub fn check_user_data(user_data: UserData<'_>) -> Result<(), Refusal>
    ensures { result ≡ summed user_data.entry.checksum user_data.entry.payload.now }
{
    match user_data.checksum {
        Some(sum) if sum != payload_checksum(user_data.payload) => Err(Refusal::PayloadChecksum),
        _ => Ok(()),
    }
}
