ghost use denote.Param.Send.{IsSend};
ghost use Rattle.felm_meaning.specs.contracts.turn.Turn.{the_row};

use felm_meaning::Turn;

/// Turns may cross threads.
pub fn turns_cross()
    ensures { IsSend the_row }
{
    cross::<Turn>()
}

// Values of a type that is `Send` may.
fn cross<T: Send>()
    ensures { IsSend T.row }
{}
