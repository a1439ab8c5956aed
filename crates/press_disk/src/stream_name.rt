//! Names of streams that a process has open (Linux, the proc file system).
ghost use Rattle.std.specs.Prelude.{IsTrue};
ghost use Rattle.press_disk.specs.SystemNames.{IsOfSystem};

/// The names of the standard streams.
const STANDARD: [&str; 3] = ["/dev/stdin", "/dev/stdout", "/dev/stderr"];

/// Whether this is the name of an open stream of a process: of a standard one, or by its number, as `/dev/fd/3` and `/proc/self/fd/3`.
pub(crate) fn is_stream_name(name: &str) -> bool
    ensures { IsTrue result → IsOfSystem name.now }
{
    let Some((folder, number)) = name.rsplit_once('/') else {
        return false;
    };
    STANDARD.contains(&name)
        || is_stream_folder(folder)
            && !number.is_empty()
            && number.bytes().all(|byte| byte.is_ascii_digit())
}

/// Whether this folder has the open streams of a process.
fn is_stream_folder(folder: &str) -> bool
    ensures { IsTrue result → IsOfSystem folder.now }
{
    folder == "/dev/fd"
        || match folder
            .strip_prefix("/proc/")
            .and_then(|inside| inside.strip_suffix("/fd"))
        {
            Some(process) => !process.contains('/'),
            None => false,
        }
}
