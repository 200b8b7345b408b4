ghost use denote.Param.Send.{IsSend};
ghost use Rattle.felm_session.specs.contracts.session.Session as session;

use felm_engine::engines_cross;

/// Sessions may cross threads.
pub fn sessions_cross()
    ensures { IsSend session.the_row }
{
    engines_cross()
}
