// Laws of the definitions: what is answered to a query is one thing, and runs begin.
ghost use Rattle.surf_prog.specs.Starts.{ImagesStart};
ghost use Rattle.surf_prog.specs.OneAnswer.{RepliesAreOne, ListsAreOne, AbsencesAreOne, ImagesPass, OutcomesExclude};

/// The laws of what is answered. The reply of an image is one text, and a list or a run of a file is one by whatever image of it. One
/// address is absent. A file has an image or a failing check; and of no entry in code, a round behind the last, an absent address and a
/// reply an image has one at most.
pub fn answer_laws()
    ensures replies { RepliesAreOne }
    ensures lists { ListsAreOne }
    ensures absences { AbsencesAreOne }
    ensures images { ImagesPass }
    ensures outcomes { OutcomesExclude }
{}

/// Each image of bytes has a start, wherever it is entered: what is said of every run of an image speaks of runs.
pub fn images_start()
    ensures { ImagesStart }
{}
