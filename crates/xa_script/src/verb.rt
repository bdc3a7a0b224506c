ghost use Rattle.std.specs.Prelude.{◌≡◌};
ghost use Rattle.xa_script.specs.Requests.{verb_of};

use xa_codes::Call;

/// The call that a word names.
pub fn read_verb(word: &[u8]) -> Option<Call>
    ensures { result ≡ verb_of word.now }
{
    let Ok(word) = str::from_utf8(word) else {
        return None;
    };
    match word {
        "open" => Some(Call::Open),
        "close" => Some(Call::Close),
        "start" => Some(Call::Start),
        "end" => Some(Call::End),
        "prepare" => Some(Call::Prepare),
        "commit" => Some(Call::Commit),
        "rollback" => Some(Call::Rollback),
        "forget" => Some(Call::Forget),
        "recover" => Some(Call::Recover),
        "get" => Some(Call::Get),
        "put" => Some(Call::Put),
        "delete" => Some(Call::Delete),
        "decide" => Some(Call::Decide),
        "doom" => Some(Call::Doom),
        "restart" => Some(Call::Restart),
        "timeout" => Some(Call::Timeout),
        "tick" => Some(Call::Tick),
        "trim" => Some(Call::Trim),
        "branches" => Some(Call::Branches),
        _ => None,
    }
}
