//! What holds of the reports of `pack`.

ghost use Rattle.hq_showing.specs.Packing.{OneReport};

/// What `pack` writes and answers is a function of its words, where memory doesn't run out.
pub fn one_pack_report()
    ensures { OneReport }
{}
