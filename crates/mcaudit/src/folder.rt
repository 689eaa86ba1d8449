//! The folder that a task reads.

ghost use Rattle.std.specs.Prelude.{◌≡◌, false};
ghost use Rattle.mc_run.specs.Task.{folder_of};

use mc_cli::Task;
use mc_files::Folder;
use std::rt::Files;

/// The folder that the task reads. A task that reads none gets the current directory, and doesn't use
/// it.
pub(crate) fn folder_of<'a, R: Files>(rt: &'a R, task: &'a Task<'a>) -> Folder<'a, R>
    ensures folder { result.folder ≡ folder_of task.now }
    ensures unread { (result.is_open ≡ false) × (result.failed ≡ 0) }
{
    match task {
        Task::Pack { folder, .. } => Folder::new(rt, folder),
        Task::Audit(words) => Folder::new(rt, words.folder),
        _ => Folder::new(rt, ""),
    }
}
