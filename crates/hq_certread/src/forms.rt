//! The forms of lines, by the name of a rule or a kind and the count of words behind it.

ghost use Rattle.std.specs.Prelude.{◌≡◌};
ghost use Rattle.hq_certread.specs.LineTests.{rule_kind, fences_kind};

/// The rules.
#[derive(Clone, Copy, Debug, PartialEq, Eq)]
pub enum RuleKind {
    Bit,
    Queue,
    And,
    Or,
    Through,
}

/// The kinds of pair lines.
#[derive(Clone, Copy, Debug, PartialEq, Eq)]
pub enum FencesKind {
    ReadWrite,
    WriteWrite,
    WriteRead,
    WriteWriteChained,
    WriteReadChained,
}

/// The rule of this name, with so many words behind it.
#[tactic(auto, unfolding(crate::specs::LineTests::rule_kind))]
pub fn rule_kind(name: &[u8], count: usize) -> Option<RuleKind>
    ensures { result ≡ rule_kind name.now count }
{
    if name == b"bit".as_slice() && count == 1 {
        Some(RuleKind::Bit)
    } else if name == b"queue".as_slice() && count == 0 {
        Some(RuleKind::Queue)
    } else if name == b"and".as_slice() && count == 1 {
        Some(RuleKind::And)
    } else if name == b"or".as_slice() && count >= 1 && count <= 5 {
        Some(RuleKind::Or)
    } else if name == b"through".as_slice() && count == 2 {
        Some(RuleKind::Through)
    } else {
        None
    }
}

/// The kind of this name, with so many words behind it. The chained ones stand only where they may.
#[tactic(auto, unfolding(crate::specs::LineTests::fences_kind))]
pub fn fences_kind(chained: bool, name: &[u8], count: usize) -> Option<FencesKind>
    ensures { result ≡ fences_kind chained name.now count }
{
    if name == b"rw".as_slice() && count == 1 {
        Some(FencesKind::ReadWrite)
    } else if name == b"ww".as_slice() && count == 3 {
        Some(FencesKind::WriteWrite)
    } else if name == b"wr".as_slice() && count == 5 {
        Some(FencesKind::WriteRead)
    } else if name == b"wwc".as_slice() && count == 5 && chained {
        Some(FencesKind::WriteWriteChained)
    } else if name == b"wrc".as_slice() && count == 9 && chained {
        Some(FencesKind::WriteReadChained)
    } else {
        None
    }
}
