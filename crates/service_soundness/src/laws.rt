//! Laws of the definitions.

ghost use Rattle.service_soundness.specs.Laws.{QuietRepliesListDependences};

/// Where the round of a session's reply has no warning, the reply lists each dependence of each run: in a run of the image from the entry,
/// under the call model, each occurrence on which an occurrence at the criterion's address depends, by last write, by the branches that
/// decide whether it comes, directly or through others, stands at a listed address.
pub fn quiet_replies_list_dependences()
    ensures { QuietRepliesListDependences }
{}
