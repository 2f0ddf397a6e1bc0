//! Laws of the top call, each the contract of a function that does nothing.

ghost use Rattle.ms_cli.specs.Laws.{StoreFaultsAreCounted, WholeTextsArePiped};

use ms_session::whole_texts_are_served;

/// `pipe` over an input that is known answers each whole message of it, up to one that asks for the end
/// of the session, and its status tells how the input ends, unless something outside fails or memory
/// is refused.
pub fn whole_texts_are_piped()
    ensures { WholeTextsArePiped }
{
    whole_texts_are_served();
}

/// Where the disks count no fault in a call of `pipe`, none of its replies is a fault of the store.
pub fn store_faults_are_counted()
    ensures { StoreFaultsAreCounted }
{}
