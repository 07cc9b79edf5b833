// Batches and the ends of sessions.
ghost use Rattle.ec_coherence.specs.BatchLaws.{FlushesStep, BatchesKeep, EndsKeep, FinishKeeps, FlushKeeps, OpenKeeps, OpenOverKeeps, GiveKeeps};

/// A batch that is under way is taken by the server and never ends its session, and behind its
/// record logs, batches, ids and images agree; so they do behind the end of a session.
pub fn records_keep_logs_and_images()
    ensures steps { FlushesStep }
    ensures batches { BatchesKeep }
    ensures ends { EndsKeep }
{}

/// A server that ends a session, takes a batch, opens a session or gives ids leaves sessions, tokens,
/// logs and images in agreement, with its record and its messages.
pub fn records_keep_nodes_in_agreement()
    ensures finish { FinishKeeps }
    ensures flush { FlushKeeps }
    ensures open { OpenKeeps }
    ensures over { OpenOverKeeps }
    ensures give { GiveKeeps }
{}
