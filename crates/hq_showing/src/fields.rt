//! A packet's fields, of words.

ghost use Rattle.std.specs.Prelude.{◌≡◌, ◌+◌, ◌<◌, ◌≤◌, Bool, length, map, codes, MatchOption};
ghost use Rattle.hq_text.specs.Numbers.{number_of};
ghost use Rattle.hq_packet.specs.declared.packet.AgentCall.{AgentCall};
ghost use Rattle.hq_packet.specs.declared.packet.Barrier.{Barrier};
ghost use Rattle.hq_packet.specs.declared.packet.Head.{Head};
ghost use Rattle.hq_packet.specs.declared.packet.KernelFields.{KernelFields};
ghost use Rattle.hq_packet.specs.declared.packet.Scope.{Scope};
ghost use Rattle.hq_showing.specs.declared.fields.Fields.{Fields};
ghost use Rattle.hq_report.specs.Shown.{scope_word};
ghost use Rattle.hq_showing.specs.Pack.{word_at, number_in, numbers_in, bit_word, HeadWords};
ghost use Rattle.hq_showing.specs.Pack.{KernelWords, AgentWords, BarrierWords, Say};

use hq_packet::{AgentCall, Barrier, Head, KernelFields, Scope};
use hq_text::number_of;

/// A packet's fields as words say them; those of a kernel dispatch may be no packet's.
#[derive(Clone, Copy)]
pub enum Fields {
    Kernel(KernelFields),
    Agent(AgentCall),
    And(Barrier),
    Or(Barrier),
}

/// The number that the word at a place is.
fn number_in(words: &[&str], place: usize) -> Option<u64>
    requires { place < length words.now }
    ensures { result ≡ number_of (word_at (map (λ w. w.now) words.now) place) }
{
    number_of(words[place].as_bytes())
}

/// The number of 16 bits that the word at a place is.
fn u16_in(words: &[&str], place: usize) -> Option<u16>
    requires { place < length words.now }
    ensures { result ≡ number_in 16 (map (λ w. w.now) words.now) place }
{
    u16::try_from(number_in(words, place)?).ok()
}

/// The number of 32 bits that the word at a place is.
fn u32_in(words: &[&str], place: usize) -> Option<u32>
    requires { place < length words.now }
    ensures { result ≡ number_in 32 (map (λ w. w.now) words.now) place }
{
    u32::try_from(number_in(words, place)?).ok()
}

/// The number of 64 bits that the word at a place is.
fn u64_in(words: &[&str], place: usize) -> Option<u64>
    requires { place < length words.now }
    ensures { result ≡ number_in 64 (map (λ w. w.now) words.now) place }
{
    number_in(words, place)
}

/// The numbers of a work-group's three sizes, from a place on.
fn group_in(words: &[&str], place: usize) -> Option<[u16; 3]>
    requires { place + 3 ≤ length words.now }
    ensures { result ≡ numbers_in 3 16 (map (λ w. w.now) words.now) place }
{
    Some([
        u16_in(words, place)?,
        u16_in(words, place + 1)?,
        u16_in(words, place + 2)?,
    ])
}

/// The numbers of a grid's three sizes, from a place on.
fn grid_in(words: &[&str], place: usize) -> Option<[u32; 3]>
    requires { place + 3 ≤ length words.now }
    ensures { result ≡ numbers_in 3 32 (map (λ w. w.now) words.now) place }
{
    Some([
        u32_in(words, place)?,
        u32_in(words, place + 1)?,
        u32_in(words, place + 2)?,
    ])
}

/// The numbers of a service's four arguments, from a place on.
fn args_in(words: &[&str], place: usize) -> Option<[u64; 4]>
    requires { place + 4 ≤ length words.now }
    ensures { result ≡ numbers_in 4 64 (map (λ w. w.now) words.now) place }
{
    Some([
        u64_in(words, place)?,
        u64_in(words, place + 1)?,
        u64_in(words, place + 2)?,
        u64_in(words, place + 3)?,
    ])
}

/// The numbers of five dependencies, from a place on.
fn deps_in(words: &[&str], place: usize) -> Option<[u64; 5]>
    requires { place + 5 ≤ length words.now }
    ensures { result ≡ numbers_in 5 64 (map (λ w. w.now) words.now) place }
{
    Some([
        u64_in(words, place)?,
        u64_in(words, place + 1)?,
        u64_in(words, place + 2)?,
        u64_in(words, place + 3)?,
        u64_in(words, place + 4)?,
    ])
}

/// The barrier bit of its word.
fn bit_of(word: &str) -> Option<bool>
    ensures { MatchOption result ((bit : Bool) → word.now ≡ bit_word bit → ⊥) (λ bit. word.now ≡ bit_word bit) }
{
    match word {
        "0" => Some(false),
        "1" => Some(true),
        _ => None,
    }
}

/// A fence's scope of its word.
fn scope_of(word: &str) -> Option<Scope>
    ensures { MatchOption result ((scope : Scope) → word.now ≡ scope_word scope → ⊥)
        (λ scope. word.now ≡ scope_word scope) }
{
    match word {
        "none" => Some(Scope::None),
        "agent" => Some(Scope::Agent),
        "system" => Some(Scope::System),
        _ => None,
    }
}

/// The head that the words behind a packet's kind say.
fn head_in(words: &[&str]) -> Option<Head>
    requires { 4 ≤ length words.now }
    ensures { MatchOption result
        ((head : Head) → HeadWords (word_at (map (λ w. w.now) words.now) 0) (map (λ w. w.now) words.now) head → ⊥)
        (λ head. HeadWords (word_at (map (λ w. w.now) words.now) 0) (map (λ w. w.now) words.now) head) }
{
    Some(Head {
        barrier: bit_of(words[1])?,
        acquire: scope_of(words[2])?,
        release: scope_of(words[3])?,
    })
}

/// The fields of a kernel dispatch.
fn kernel_of(words: &[&str]) -> Option<KernelFields>
    requires { word_at (map (λ w. w.now) words.now) 0 ≡ codes "kernel" }
    ensures { MatchOption result ((fields : KernelFields) → KernelWords (map (λ w. w.now) words.now) fields → ⊥)
        (λ fields. KernelWords (map (λ w. w.now) words.now) fields) }
{
    if words.len() != 16 {
        return None;
    }
    Some(KernelFields {
        head: head_in(words)?,
        dimensions: u16_in(words, 4)?,
        group: group_in(words, 5)?,
        grid: grid_in(words, 8)?,
        private_size: u32_in(words, 11)?,
        group_size: u32_in(words, 12)?,
        object: u64_in(words, 13)?,
        kernarg: u64_in(words, 14)?,
        completion: u64_in(words, 15)?,
    })
}

/// The fields of an agent dispatch.
fn agent_call_of(words: &[&str]) -> Option<AgentCall>
    requires { word_at (map (λ w. w.now) words.now) 0 ≡ codes "agent" }
    ensures { MatchOption result ((call : AgentCall) → AgentWords (map (λ w. w.now) words.now) call → ⊥)
        (λ call. AgentWords (map (λ w. w.now) words.now) call) }
{
    if words.len() != 11 {
        return None;
    }
    Some(AgentCall {
        head: head_in(words)?,
        kind: u16_in(words, 4)?,
        ret: u64_in(words, 5)?,
        args: args_in(words, 6)?,
        completion: u64_in(words, 10)?,
    })
}

/// The fields of a barrier packet, of either kind.
fn barrier_of(words: &[&str]) -> Option<Barrier>
    ensures { MatchOption result
        ((barrier : Barrier)
        → BarrierWords (word_at (map (λ w. w.now) words.now) 0) (map (λ w. w.now) words.now) barrier → ⊥)
        (λ barrier. BarrierWords (word_at (map (λ w. w.now) words.now) 0) (map (λ w. w.now) words.now) barrier) }
{
    if words.len() != 10 {
        return None;
    }
    Some(Barrier {
        head: head_in(words)?,
        deps: deps_in(words, 4)?,
        completion: u64_in(words, 9)?,
    })
}

/// The fields that words say, if they say some.
pub fn fields_of(words: &[&str]) -> Option<Fields>
    ensures { MatchOption result ((fields : Fields) → Say (map (λ w. w.now) words.now) fields → ⊥)
        (λ fields. Say (map (λ w. w.now) words.now) fields) }
{
    match *words.first()? {
        "kernel" => Some(Fields::Kernel(kernel_of(words)?)),
        "agent" => Some(Fields::Agent(agent_call_of(words)?)),
        "and" => Some(Fields::And(barrier_of(words)?)),
        "or" => Some(Fields::Or(barrier_of(words)?)),
        _ => None,
    }
}
