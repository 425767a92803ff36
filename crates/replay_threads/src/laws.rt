//! What the ring between the reading and the card does, as a law over the messages that went through it.
ghost use Rattle.replay_threads.specs.Laws.{CarriedLaw};

use zr_io::Source;

/// The frames that the card takes until its reading ends are the first of those that the reading sent, in order, each once, and they
/// are those of the source up to there. `read_turn` says that its messages are made of the source (`ReaderGoes`), a turn of the card
/// which frames they brought (`CardGoes`), and `drop_rest` that the card was sent all of them. It does nothing: its contract is
/// the law.
pub fn carried_in_order<S: Source>()
    ensures { CarriedLaw S.left S.faults }
{}
