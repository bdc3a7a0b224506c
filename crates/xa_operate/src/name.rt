ghost use Rattle.std.specs.Prelude.{◌≡◌};
ghost use Rattle.xa_script.specs.Requests.{is_graphic, is_name};

use xa_limits::MOST_INFO;

/// Whether a script can name a resource manager so: by 1 to `MOST_INFO` bytes from `!` to `~`.
pub fn is_name(name: &str) -> bool
    ensures { result ≡ is_name name.now }
{
    !name.is_empty() && name.len() <= MOST_INFO && is_graphic(name.as_bytes())
}

fn is_graphic(name: &[u8]) -> bool
    ensures { result ≡ is_graphic name.now }
{
    name.iter().all(|byte| byte.is_ascii_graphic())
}
