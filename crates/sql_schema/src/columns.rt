//! The columns of the tables: the name of each, how it is declared, and its place among the parameters. The first is the key.

macro_rules! meta {
    ($text:ident $($more:tt)*) => {
        $text!(
            "meta",
            ("id", "INTEGER PRIMARY KEY", "?1"),
            ("format", "INTEGER NOT NULL", "?2"),
            ("base", "TEXT NOT NULL", "?3"),
            ("nonce_life", "INTEGER NOT NULL", "?4"),
            ("order_life", "INTEGER NOT NULL", "?5"),
            ("authz_life", "INTEGER NOT NULL", "?6"),
            ("clock", "INTEGER NOT NULL", "?7"),
            ("nonces", "INTEGER NOT NULL", "?8"),
            ("accounts", "INTEGER NOT NULL", "?9"),
            ("orders", "INTEGER NOT NULL", "?10"),
            ("authzs", "INTEGER NOT NULL", "?11"),
            ("challs", "INTEGER NOT NULL", "?12")
            $($more)*
        )
    };
}

macro_rules! nonce {
    ($text:ident $($more:tt)*) => {
        $text!(
            "nonce",
            ("serial", "INTEGER PRIMARY KEY", "?1"),
            ("random", "BLOB NOT NULL", "?2"),
            ("issued", "INTEGER NOT NULL", "?3")
            $($more)*
        )
    };
}

macro_rules! account {
    ($text:ident $($more:tt)*) => {
        $text!(
            "account",
            ("num", "INTEGER PRIMARY KEY", "?1"),
            ("jwk", "TEXT NOT NULL UNIQUE", "?2"),
            ("contacts", "TEXT NOT NULL", "?3"),
            ("opened", "INTEGER NOT NULL", "?4"),
            ("ended", "INTEGER", "?5"),
            ("end_kind", "TEXT", "?6"),
            ("status", "TEXT NOT NULL", "?7")
            $($more)*
        )
    };
}

macro_rules! ord {
    ($text:ident $($more:tt)*) => {
        $text!(
            "ord",
            ("num", "INTEGER PRIMARY KEY", "?1"),
            ("account", "INTEGER NOT NULL REFERENCES account (num)", "?2"),
            ("made", "INTEGER NOT NULL", "?3"),
            ("expires", "INTEGER NOT NULL", "?4"),
            ("finalized", "INTEGER", "?5"),
            ("csr", "BLOB", "?6"),
            ("certified", "INTEGER", "?7"),
            ("cert", "BLOB", "?8"),
            ("failed", "INTEGER", "?9"),
            ("problem", "TEXT", "?10"),
            ("status", "TEXT NOT NULL", "?11")
            $($more)*
        )
    };
}

macro_rules! authz {
    ($text:ident $($more:tt)*) => {
        $text!(
            "authz",
            ("num", "INTEGER PRIMARY KEY", "?1"),
            ("account", "INTEGER NOT NULL REFERENCES account (num)", "?2"),
            ("name", "TEXT NOT NULL", "?3"),
            ("wildcard", "INTEGER NOT NULL", "?4"),
            ("made", "INTEGER NOT NULL", "?5"),
            ("expires", "INTEGER NOT NULL", "?6"),
            ("ended", "INTEGER", "?7"),
            ("end_kind", "TEXT", "?8"),
            ("status", "TEXT NOT NULL", "?9")
            $($more)*
        )
    };
}

macro_rules! chall {
    ($text:ident $($more:tt)*) => {
        $text!(
            "chall",
            ("num", "INTEGER PRIMARY KEY", "?1"),
            ("authz", "INTEGER NOT NULL REFERENCES authz (num)", "?2"),
            ("kind", "TEXT NOT NULL", "?3"),
            ("token", "BLOB NOT NULL", "?4"),
            ("answered", "INTEGER", "?5"),
            ("reported", "INTEGER", "?6"),
            ("outcome", "TEXT", "?7"),
            ("status", "TEXT NOT NULL", "?8")
            $($more)*
        )
    };
}

macro_rules! chall_key {
    ($text:ident $($more:tt)*) => {
        $text!(
            "chall_key",
            ("chall", "INTEGER PRIMARY KEY REFERENCES chall (num)", "?1"),
            ("thumb", "BLOB NOT NULL", "?2")
            $($more)*
        )
    };
}

pub(crate) use account;
pub(crate) use authz;
pub(crate) use chall;
pub(crate) use chall_key;
pub(crate) use meta;
pub(crate) use nonce;
pub(crate) use ord;
