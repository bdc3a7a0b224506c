use crate::tests::rows::none_wrong;
use std::alloc::{AllocError, Global};
use xa_roles::Role;
use xa_rows::first_wrong;
use xa_scram::{Name, Nonce, Opening, Response, Verifier, put_opening};
use xa_users::{MOST_USERS, Users, UsersFault, line_of, put_user};

/// Three users, with the secrets `pencil`, `crayon` and `chalk`. The verifiers are by Python's hashlib.
const DOCUMENT: &str = "# who may log in
[user]
role = \"client\"
verifier = \"SCRAM-SHA-256$4096:W22ZaJ0SNY7soEsUEjb6gQ==$WG5d8oPm3OtcPnkdi4Uo7BkeZkBFzpcXkuLmtbsT4qY=:wfPLwcE6nTWhTAmQ7tl2KeoiWGPlZqQxSrmfPwDl2dU=\"

[\"duty.1@host\"]
verifier = 'SCRAM-SHA-256$4096:AQIDBAUGBwgJCgsMDQ4PEA==$/ZXuOP0CKoNa6rJzmJ7Z+woBaD/1WPhadsY+Zs0kBkc=:8YE5w6kjMosz362G82lLJqy3Hjr/8A9nN6RS1Qqdaeo='
role = 'operator'

[watch]
role = \"monitor\"
verifier = \"SCRAM-SHA-256$4096:ERITFBUWFxgZGhscHR4fIA==$7vDntmfd6wyH/CPnrFhgLZnMm0qkLFAdkOzmRFiXkk0=:S6pZDv6nxOqeB1aFVf499PozQ6EYDhAtwdr5wIDdIcg=\"
";

/// One of these names, with the secret `crayon` in place of `pencil`.
const CHANGED: &str = "[user]
role = \"operator\"
verifier = \"SCRAM-SHA-256$4096:AQIDBAUGBwgJCgsMDQ4PEA==$/ZXuOP0CKoNa6rJzmJ7Z+woBaD/1WPhadsY+Zs0kBkc=:8YE5w6kjMosz362G82lLJqy3Hjr/8A9nN6RS1Qqdaeo=\"
";

/// What `xa_users` puts for the second user: PostgreSQL's text of a verifier, and the name in quotes.
const LINES: &str = "[\"duty.1@host\"]
role = \"operator\"
verifier = \"SCRAM-SHA-256$4096:AQIDBAUGBwgJCgsMDQ4PEA==$/ZXuOP0CKoNa6rJzmJ7Z+woBaD/1WPhadsY+Zs0kBkc=:8YE5w6kjMosz362G82lLJqy3Hjr/8A9nN6RS1Qqdaeo=\"
";

const KEY: [u8; 32] = [3; 32];

/// A login among these users.
#[derive(Clone, Copy)]
struct Case {
    name: &'static [u8],
    secret: &'static [u8],
    /// The client answers the challenge of another login.
    is_of_another: bool,
    /// Who is let in, and accepts the server.
    role: Option<Role>,
}

const CASES: [Case; 7] = [
    Case {
        name: b"user",
        secret: b"pencil",
        is_of_another: false,
        role: Some(Role::Client),
    },
    Case {
        name: b"duty.1@host",
        secret: b"crayon",
        is_of_another: false,
        role: Some(Role::Operator),
    },
    Case {
        name: b"watch",
        secret: b"chalk",
        is_of_another: false,
        role: Some(Role::Monitor),
    },
    Case {
        name: b"watch",
        secret: b"crayon",
        is_of_another: false,
        role: None,
    },
    Case {
        name: b"user",
        secret: b"",
        is_of_another: false,
        role: None,
    },
    Case {
        name: b"nobody",
        secret: b"pencil",
        is_of_another: false,
        role: None,
    },
    Case {
        name: b"user",
        secret: b"pencil",
        is_of_another: true,
        role: None,
    },
];

/// A document, what is wrong with it, and on which line.
type Faulty = (&'static str, &'static str, Option<u64>);

const FAULTY: [Faulty; 9] = [
    ("", "no users: nobody could log in", None),
    ("# none\n", "no users: nobody could log in", None),
    ("[user]\nrole = client\n", "line 2: not TOML", Some(2)),
    (
        "\n[\"a user\"]\n",
        "\"a user\" is no name: a name has 1 to 64 letters, digits, '-', '_', '.' and '@'",
        Some(2),
    ),
    (
        "[user]\nrole = \"client\"\n",
        "user user: not a table of two strings, role and verifier, and no more",
        Some(1),
    ),
    (
        "# user\nuser = 3\n",
        "user user: not a table of two strings, role and verifier, and no more",
        Some(2),
    ),
    (
        "[user]\nrole = \"client\"\nsecret = \"\"\nverifier = \"\"\n",
        "user user: not a table of two strings, role and verifier, and no more",
        Some(1),
    ),
    (
        "[users]\n[user]\nrole = \"root\"\nverifier = \"\"\n",
        "user user: role is not monitor, client or operator",
        Some(2),
    ),
    (
        "[user]\nrole = \"client\"\nverifier = \"SCRAM-SHA-256$4095:AQIDBAUGBwgJCgsMDQ4PEA==$/ZXuOP0CKoNa6rJzmJ7Z+woBaD/1WPhadsY+Zs0kBkc=:8YE5w6kjMosz362G82lLJqy3Hjr/8A9nN6RS1Qqdaeo=\"\n",
        "user user: verifier is not SCRAM-SHA-256$ITERATIONS:SALT$STOREDKEY:SERVERKEY",
        Some(1),
    ),
];

/// Who is let in and accepts the server: `None` if a part can't be made, or who is let in doesn't accept it.
fn let_in(users: &Users, later: &Users, case: &Case) -> Option<Option<Role>> {
    let name = Name::new(case.name)?;
    let nonce = Nonce::new(b"rOprNGfwEbeRWgbNEkqO")?;
    let opening = Opening::of(put_opening(&name, &nonce).as_slice())?;
    let login = users.begin(&opening, &[7; 18], &KEY);
    let another = users.begin(&opening, &[8; 18], &KEY);
    let challenge = if case.is_of_another {
        another.challenge()
    } else {
        login.challenge()
    };
    let response = Response::to(&name, &nonce, case.secret, challenge)?;
    match later.finish(login, response.message()) {
        Some(welcome) => {
            if response.is_accepted_by(welcome.text.as_slice()) {
                Some(Some(welcome.role))
            } else {
                None
            }
        }
        None => Some(None),
    }
}

fn wrong_case(alloc: Global, rows: &[Case]) -> Option<usize> {
    let Ok(users) = Users::read(alloc, DOCUMENT) else {
        return Some(0);
    };
    first_wrong(rows, |case| let_in(&users, &users, case) == Some(case.role))
}

/// A user whose verifier changes during a login isn't let in by it.
fn is_ended_by_a_change(alloc: Global) -> bool {
    let (Ok(users), Ok(changed)) = (Users::read(alloc, DOCUMENT), Users::read(alloc, CHANGED))
    else {
        return false;
    };
    let case = CASES[0];
    let again = Case {
        secret: b"crayon",
        ..case
    };
    let_in(&users, &changed, &case) == Some(None)
        && let_in(&changed, &users, &again) == Some(None)
        && let_in(&changed, &changed, &again) == Some(Some(Role::Operator))
}

/// Whether the text has this fault, on this line.
fn has_fault(alloc: Global, text: &str, want: &str, line: Option<u64>) -> bool {
    match Users::read(alloc, text) {
        Ok(_) => false,
        Err(fault) => line_of(text, &fault) == line && is_told(alloc, &fault, want),
    }
}

fn is_told(alloc: Global, fault: &UsersFault, want: &str) -> bool {
    match format!(in alloc; "{fault}") {
        Ok(told) => told.as_str() == want,
        Err(_) => false,
    }
}

fn wrong_fault(alloc: Global, rows: &[Faulty]) -> Option<usize> {
    first_wrong(
        rows,
        |(text, want, line)| has_fault(alloc, text, want, *line),
    )
}

/// A document with this many tables.
fn tables(alloc: Global, count: usize) -> Result<String, AllocError> {
    let mut text = String::new(alloc);
    for number in 0..count {
        text.push_str(format!(in alloc; "[user{number}]\n")?.as_str())?;
    }
    Ok(text)
}

fn is_too_long(alloc: Global) -> bool {
    match tables(alloc, MOST_USERS + 1) {
        Ok(text) => has_fault(alloc, text.as_str(), "more than 1,024 users", None),
        Err(_) => false,
    }
}

/// What is put for two users is the document of both.
fn are_put(alloc: Global) -> Option<bool> {
    let name = Name::new(b"duty.1@host")?;
    let verifier = Verifier::of_secret(
        b"crayon",
        &[1, 2, 3, 4, 5, 6, 7, 8, 9, 10, 11, 12, 13, 14, 15, 16],
        4096,
    )?;
    let mut out: Vec<u8> = Vec::new(alloc);
    put_user(&mut out, &name, Role::Operator, &verifier).ok()?;
    let is_alone = out.as_slice() == LINES.as_bytes();
    put_user(&mut out, &Name::new(b"user")?, Role::Client, &verifier).ok()?;
    let users = Users::read(alloc, std::str::from_utf8(out.as_slice()).ok()?).ok()?;
    let case = CASES[1];
    let other = Case {
        name: b"user",
        role: Some(Role::Client),
        ..case
    };
    let is_first = let_in(&users, &users, &case) == Some(case.role);
    let is_second = let_in(&users, &users, &other) == Some(other.role);
    Some(is_alone && is_first && is_second)
}

#[test]
fn logins(rt: HostRuntime) {
    none_wrong(&rt, wrong_case(rt.alloc(), &CASES));
    assert!(rt; is_ended_by_a_change(rt.alloc()));
}

#[test]
fn faults(rt: HostRuntime) {
    none_wrong(&rt, wrong_fault(rt.alloc(), &FAULTY));
    assert!(rt; is_too_long(rt.alloc()));
}

#[test]
fn lines(rt: HostRuntime) {
    assert_eq!(rt; are_put(rt.alloc()), Some(true));
}
