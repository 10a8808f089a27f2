//! The transaction inventory page: two bits for a transaction's state.

ghost use Rattle.std.specs.Prelude.{◌≡◌, ◌+◌, ◌*◌, ◌-◌, ◌^◌, ◌<◌, ◌≤◌, ◌++◌, ℕ, length, take, slice_index, IfOk, OnOk};
ghost use Rattle.std.specs.List.{list_any};
ghost use Rattle.fbc_kinds.specs.Head.{Gives, GivesRule, sequence_in};
ghost use Rattle.fbc_kinds.specs.Limits.{IsPageSize};
ghost use Rattle.fbc_pages.specs.Parts.{states_of};
ghost use Rattle.fbc_kinds.specs.TipSpelling.{broken_states, broken_tip, byte_has_limbo, has_bad_state, has_bad_zero, state_of_code, IsTip, SpellsTip, state_code, code_at, states_byte};

use crate::head::{read_head, write_head};
use fbc_kinds::{Listed, PageFault, Rule, State, Tip};
use std::alloc::{AllocError, Global};

const TIP: u8 = 3;

/// Reads a transaction inventory page, the page of this number: `Damaged` where the bytes spell
/// none, with the first rule that they break.
pub fn decode_tip(alloc: Global, size: u32, page: u32, bytes: &[u8]) -> Result<Tip, PageFault>
    requires size { IsPageSize size }
    requires length { length bytes.now ≡ size }
    ensures number { IfOk result (λ tip. tip.page ≡ page) }
    ensures page { IfOk result (λ tip. SpellsTip size tip bytes.now) }
    ensures exact { Gives result (broken_tip page bytes.now) }
{
    let _ = size;
    let head = read_head(TIP, page, bytes)?;
    check_states(head.sequence, bytes)?;
    let states = read_states(alloc, bytes)?;
    Ok(Tip {
        page,
        sequence: head.sequence,
        states: Listed::new(states),
    })
}

fn check_states(sequence: u32, bytes: &[u8]) -> Result<(), Rule>
    requires length { 16 < length bytes.now }
    requires sequence { sequence ≡ sequence_in bytes.now }
    ensures { GivesRule result (broken_states bytes.now) }
{
    if has_bad_zero(sequence, bytes) {
        return Err(Rule::Zero);
    }
    if has_bad_state(bytes) {
        return Err(Rule::State);
    }
    Ok(())
}

fn has_bad_zero(sequence: u32, bytes: &[u8]) -> bool
    requires length { 16 < length bytes.now }
    requires sequence { sequence ≡ sequence_in bytes.now }
    ensures { result ≡ has_bad_zero bytes.now }
{
    sequence == 0 && bytes[16] % 4 != 0
}

fn has_bad_state(bytes: &[u8]) -> bool
    requires { 16 ≤ length bytes.now }
    ensures { result ≡ has_bad_state bytes.now }
{
    any_limbo(&bytes[16..])
}

fn any_limbo(bytes: &[u8]) -> bool
    ensures { result ≡ list_any byte_has_limbo bytes.now }
{
    bytes.iter().any(|byte| byte_has_limbo(*byte))
}

fn byte_has_limbo(byte: u8) -> bool
    ensures { result ≡ byte_has_limbo byte }
{
    byte % 4 == 1 || byte / 4 % 4 == 1 || byte / 16 % 4 == 1 || byte / 64 % 4 == 1
}

fn read_states(alloc: Global, bytes: &[u8]) -> Result<Vec<State>, AllocError>
    requires head { 16 ≤ length bytes.now }
    requires long { length bytes.now < 2 ^ 32 }
    ensures count { IfOk result (λ states. length states.items ≡ 4 * (length bytes.now - 16)) }
    ensures states { IfOk result (λ states. (k : ℕ) → k < length bytes.now - 16 → slice_index bytes.now (16 + k) ≡ states_byte states.items k) }
{
    let count = bytes.len() - 16;
    let mut states = Vec::with_capacity(alloc, 4 * count)?;
    for k in 0..count {
        push_states(&mut states, bytes[16 + k])?;
    }
    Ok(states)
}

fn push_states(states: &mut Vec<State>, byte: u8) -> Result<(), AllocError>
    ensures { OnOk result (states.new.items ≡ states.old.items ++ states_of byte) }
{
    states.push(state_of_code(byte % 4))?;
    states.push(state_of_code(byte / 4 % 4))?;
    states.push(state_of_code(byte / 16 % 4))?;
    states.push(state_of_code(byte / 64 % 4))?;
    Ok(())
}

fn state_of_code(code: u8) -> State
    ensures { result ≡ state_of_code code }
{
    match code {
        0 => State::Active,
        1 => State::Limbo,
        2 => State::Dead,
        _ => State::Committed,
    }
}

/// Writes the bytes of a transaction inventory page.
pub fn encode_tip(page: &Tip, size: u32, out: &mut [u8])
    requires size { IsPageSize size }
    requires page { IsTip size page.now }
    requires length { length out.old ≡ size }
    ensures { SpellsTip size page.now out.new }
{
    write_head(TIP, 0, page.page, page.sequence, out);
    write_states(page.states.items(), out);
}

fn write_states(states: &[State], out: &mut [u8])
    requires head { 16 ≤ length out.old }
    requires states { length states.now ≡ 4 * (length out.old - 16) }
    ensures head { take 16 out.new ≡ take 16 out.old }
    ensures states { (k : ℕ) → k < length out.new - 16 → slice_index out.new (16 + k) ≡ states_byte states.now k }
{
    for k in 0..out.len() - 16 {
        out[16 + k] = states_byte(states, k);
    }
}

fn states_byte(states: &[State], k: usize) -> u8
    requires { 4 * k + 4 ≤ length states.now }
    ensures { result ≡ states_byte states.now k }
{
    let at = 4 * k;
    code_at(states, at)
        + 4 * (code_at(states, at + 1)
            + 4 * (code_at(states, at + 2) + 4 * code_at(states, at + 3)))
}

fn code_at(states: &[State], i: usize) -> u8
    requires { i < length states.now }
    ensures code { result ≡ code_at states.now i }
    ensures small { result < 4 }
{
    state_code(states[i])
}

fn state_code(state: State) -> u8
    ensures code { result ≡ state_code state }
    ensures small { result < 4 }
{
    match state {
        State::Active => 0,
        State::Limbo => 1,
        State::Dead => 2,
        State::Committed => 3,
    }
}
