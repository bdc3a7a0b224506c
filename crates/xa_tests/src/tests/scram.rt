use crate::tests::rows::none_wrong;
use arrayvec::ArrayVec;
use xa_rows::first_wrong;
use xa_scram::{
    Exchange, MOST_MESSAGE, Name, Nonce, Opening, Response, Verifier, hi, hmac, put_opening,
};

/// A key, a message, and its HMAC-SHA-256.
type Keyed = (&'static [u8], &'static [u8], [u8; 32]);

/// RFC 4231: cases 1, 2 and 6, of which the last has a key that is longer than a block.
const KEYED: [Keyed; 3] = [
    (
        &[0x0b; 20],
        b"Hi There",
        [
            0xb0, 0x34, 0x4c, 0x61, 0xd8, 0xdb, 0x38, 0x53, 0x5c, 0xa8, 0xaf, 0xce, 0xaf, 0x0b,
            0xf1, 0x2b, 0x88, 0x1d, 0xc2, 0x00, 0xc9, 0x83, 0x3d, 0xa7, 0x26, 0xe9, 0x37, 0x6c,
            0x2e, 0x32, 0xcf, 0xf7,
        ],
    ),
    (
        b"Jefe",
        b"what do ya want for nothing?",
        [
            0x5b, 0xdc, 0xc1, 0x46, 0xbf, 0x60, 0x75, 0x4e, 0x6a, 0x04, 0x24, 0x26, 0x08, 0x95,
            0x75, 0xc7, 0x5a, 0x00, 0x3f, 0x08, 0x9d, 0x27, 0x39, 0x83, 0x9d, 0xec, 0x58, 0xb9,
            0x64, 0xec, 0x38, 0x43,
        ],
    ),
    (
        &[0xaa; 131],
        b"Test Using Larger Than Block-Size Key - Hash Key First",
        [
            0x60, 0xe4, 0x31, 0x59, 0x1e, 0xe0, 0xb6, 0x7f, 0x0d, 0x8a, 0x26, 0xaa, 0xcb, 0xf5,
            0xb7, 0x7f, 0x8e, 0x0b, 0xc6, 0x21, 0x37, 0x28, 0xc5, 0x14, 0x05, 0x46, 0x04, 0x0f,
            0x0e, 0xe3, 0x7f, 0x54,
        ],
    ),
];

/// A secret, a salt, a count, and the first 32 bytes of PBKDF2 with HMAC-SHA-256.
type Stretched = (&'static [u8], &'static [u8], u32, [u8; 32]);

/// RFC 7914, 11.
const STRETCHED: [Stretched; 2] = [
    (
        b"passwd",
        b"salt",
        1,
        [
            0x55, 0xac, 0x04, 0x6e, 0x56, 0xe3, 0x08, 0x9f, 0xec, 0x16, 0x91, 0xc2, 0x25, 0x44,
            0xb6, 0x05, 0xf9, 0x41, 0x85, 0x21, 0x6d, 0xde, 0x04, 0x65, 0xe6, 0x8b, 0x9d, 0x57,
            0xc2, 0x0d, 0xac, 0xbc,
        ],
    ),
    (
        b"Password",
        b"NaCl",
        80000,
        [
            0x4d, 0xdc, 0xd8, 0xf6, 0x0b, 0x98, 0xbe, 0x21, 0x83, 0x0c, 0xee, 0x5e, 0xf2, 0x27,
            0x01, 0xf9, 0x64, 0x1a, 0x44, 0x18, 0xd0, 0x4c, 0x04, 0x14, 0xae, 0xff, 0x08, 0x87,
            0x6b, 0x34, 0xab, 0x56,
        ],
    ),
];

// RFC 7677, 3, with the secret `pencil`.

const NONCE: &[u8] = b"rOprNGfwEbeRWgbNEkqO";

const OPENING: &[u8] = b"n,,n=user,r=rOprNGfwEbeRWgbNEkqO";

const CHALLENGE: &[u8] =
    b"r=rOprNGfwEbeRWgbNEkqO%hvYDpWUa2RaTCAfuxFIlj)hNlF$k0,s=W22ZaJ0SNY7soEsUEjb6gQ==,i=4096";

const FINAL: &[u8] =
    b"c=biws,r=rOprNGfwEbeRWgbNEkqO%hvYDpWUa2RaTCAfuxFIlj)hNlF$k0,p=dHzbZapWIk4jUhN+Ute9ytag9zjfMHgsqmmiz7AndVQ=";

const ACCEPTANCE: &[u8] = b"v=6rriTRBi23WpRR/wtup+mMhUZUn/dB5nLTJRsjl95G4=";

const SALT: [u8; 16] = [
    0x5b, 0x6d, 0x99, 0x68, 0x9d, 0x12, 0x35, 0x8e, 0xec, 0xa0, 0x4b, 0x14, 0x12, 0x36, 0xfa, 0x81,
];

/// What PostgreSQL keeps of that secret and salt, by Python's hashlib.
const TEXT: &[u8] =
    b"SCRAM-SHA-256$4096:W22ZaJ0SNY7soEsUEjb6gQ==$WG5d8oPm3OtcPnkdi4Uo7BkeZkBFzpcXkuLmtbsT4qY=:wfPLwcE6nTWhTAmQ7tl2KeoiWGPlZqQxSrmfPwDl2dU=";

/// An exchange of one client and this server, which keeps the secret `pencil` of `user`.
#[derive(Clone, Copy)]
struct Case {
    secret: &'static [u8],
    is_known: bool,
    /// The client answers the challenge of another exchange.
    is_of_another: bool,
    /// It is let in, and accepts the server.
    is_let_in: bool,
}

const CASES: [Case; 4] = [
    Case {
        secret: b"pencil",
        is_known: true,
        is_of_another: false,
        is_let_in: true,
    },
    Case {
        secret: b"pencils",
        is_known: true,
        is_of_another: false,
        is_let_in: false,
    },
    Case {
        secret: b"pencil",
        is_known: false,
        is_of_another: false,
        is_let_in: false,
    },
    Case {
        secret: b"pencil",
        is_known: true,
        is_of_another: true,
        is_let_in: false,
    },
];

fn wrong_keyed(rows: &[Keyed]) -> Option<usize> {
    first_wrong(rows, |(key, message, want)| hmac(key, message) == *want)
}

fn wrong_stretched(rows: &[Stretched]) -> Option<usize> {
    first_wrong(
        rows,
        |(secret, salt, count, want)| hi(secret, salt, *count) == *want,
    )
}

/// The client of the worked exchange says what it says there, and accepts only that server.
fn is_worked_client() -> bool {
    let (Some(name), Some(nonce)) = (Name::new(b"user"), Nonce::new(NONCE)) else {
        return false;
    };
    let Some(response) = Response::to(&name, &nonce, b"pencil", CHALLENGE) else {
        return false;
    };
    put_opening(&name, &nonce).as_slice() == OPENING
        && response.message() == FINAL
        && response.is_accepted_by(ACCEPTANCE)
        && !response.is_accepted_by(FINAL)
}

/// The verifier of the worked exchange has this text, and is read from it.
fn is_worked_verifier() -> bool {
    let (Some(made), Some(read)) = (
        Verifier::of_secret(b"pencil", &SALT, 4096),
        Verifier::of_text(TEXT),
    ) else {
        return false;
    };
    let mut made_text: ArrayVec<u8, MOST_MESSAGE> = ArrayVec::new();
    made.put_text(&mut made_text);
    let mut read_text: ArrayVec<u8, MOST_MESSAGE> = ArrayVec::new();
    read.copied().put_text(&mut read_text);
    made_text.as_slice() == TEXT
        && read_text.as_slice() == TEXT
        && read.salt() == SALT.as_slice()
        && read.iterations() == 4096
}

/// Whether the client is let in, and accepts the server: none if a part can't be made.
fn is_mutual(case: &Case) -> Option<bool> {
    let name = Name::new(b"user")?;
    let nonce = Nonce::new(NONCE)?;
    let opening = Opening::of(put_opening(&name, &nonce).as_slice())?;
    let verifier = Verifier::of_secret(b"pencil", &SALT, 4096)?;
    let exchange = Exchange::begin(&opening, &verifier, case.is_known, &[7; 18]);
    let another = Exchange::begin(&opening, &verifier, case.is_known, &[8; 18]);
    let challenge = if case.is_of_another {
        another.challenge()
    } else {
        exchange.challenge()
    };
    let response = Response::to(&name, &nonce, case.secret, challenge)?;
    match exchange.finish(response.message()) {
        Some(last) => Some(response.is_accepted_by(last.as_slice())),
        None => Some(false),
    }
}

fn wrong_case(rows: &[Case]) -> Option<usize> {
    first_wrong(rows, |case| is_mutual(case) == Some(case.is_let_in))
}

/// A stand-in has one salt for a name and a key.
fn is_steady() -> bool {
    let first = Verifier::stand_in(b"nobody", &[1; 32], 4096);
    let again = Verifier::stand_in(b"nobody", &[1; 32], 4096);
    let other = Verifier::stand_in(b"no one", &[1; 32], 4096);
    first.salt() == again.salt() && first.salt() != other.salt() && first.salt().len() == 16
}

#[test]
fn keyed_hashes(rt: HostRuntime) {
    none_wrong(&rt, wrong_keyed(&KEYED));
    none_wrong(&rt, wrong_stretched(&STRETCHED));
}

#[test]
fn worked_exchange(rt: HostRuntime) {
    assert!(rt; is_worked_client());
    assert!(rt; is_worked_verifier());
}

#[test]
fn both_sides(rt: HostRuntime) {
    none_wrong(&rt, wrong_case(&CASES));
    assert!(rt; is_steady());
}
