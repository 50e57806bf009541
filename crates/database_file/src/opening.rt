ghost use Rattle.std.specs.Prelude.{◌≡◌, ◌≤◌, [], Option, IfOk, IsTrue, Err};
ghost use Rattle.std.specs.Option.{option_map};
ghost use Rattle.hyper_outside.specs.Causes.{Rose};
ghost use Rattle.outside_log.specs.Log.{standing};
ghost use Rattle.outside_log.specs.Readings.{ReadsOn, is_faithful, read_faults};
ghost use Rattle.database_file.specs.declared.stop.LoadStop.TheVariants.{ReadFault};
ghost use Rattle.database_file.specs.Faults.{Read, whole};
ghost use Rattle.database_file.specs.Opened.{AnswersPagedFrom};
ghost use Rattle.database_file.specs.Paged.{KeepsPagesOf};

use crate::front::read_front;
use crate::paged::PagedBase;
use crate::stop::LoadStop;
use outside_log::Files;
use std::alloc::Global;
use word_pages::Version;

/// Opens a file of bounds of the version `oldest` or a later one, and keeps at most so many of its pages: it asks
/// for the size, and reads all that stands before the pages. `Missing` comes exactly where there is no file of
/// this name, and `BadFile` exactly where that front isn't one of a file of such a version, or the size not that which it says: it tells the
/// first fault in the order of the format, and its place. A page is only checked when it is looked up.
/// `ReadFault` comes only where a call that reads failed. No file changes.
pub fn open_paged<F: Files>(
    alloc: Global,
    files: &mut F,
    name: &str,
    oldest: Version,
    pages: usize,
) -> Result<PagedBase, LoadStop>
    requires { 1 ≤ pages }
    ensures read { (file : Option Read) × AnswersPagedFrom oldest file result }
    ensures told { IsTrue (is_faithful (F.log files.new))
        → AnswersPagedFrom oldest (option_map whole (standing (F.log files.old) name.now)) result }
    ensures later { read_faults (F.log files.old) ≤ read_faults (F.log files.new) }
    ensures cause { result ≡ Err ReadFault
        → Rose (read_faults (F.log files.old)) (read_faults (F.log files.new)) }
    ensures reads { ReadsOn (F.log files.old) (F.log files.new) }
    ensures name { IfOk result (λ base. base.name ≡ name.now) }
    ensures none { IfOk result (λ base. base.kept ≡ []) }
    ensures of_file { IfOk result (λ base.
        KeepsPagesOf base (F.log files.new)) }
    ensures most { IfOk result (λ base. base.most ≡ pages) }
{
    let front = read_front(files, name, oldest)?;
    let base = PagedBase::new(alloc, front, name, pages)?;
    Ok(base)
}
