//! A law of what the texts of an order come to: a function whose body does nothing, for the sake of its contract.
ghost use Rattle.felm_cli.specs.Laws.{TextsComeToOneEnd};

/// The texts of an order come to at most one status.
pub fn texts_come_to_one_end()
    ensures { TextsComeToOneEnd }
{}
