//! The fixed texts of the page.

// A heading, what is said below it, and the head of a table.
macro_rules! table {
    ($title:literal, $about:literal, $columns:literal) => {
        concat!(
            "<h2>",
            $title,
            "</h2>\n<p>",
            $about,
            "</p>\n<table><thead><tr><th>",
            $columns,
            "</th></tr></thead><tbody>"
        )
    };
}

// The head of a table of orders.
macro_rules! orders {
    ($title:literal, $about:literal) => {
        table!(
            $title,
            $about,
            "Order</th><th>Account</th><th>Status</th><th>Ends</th><th>Names</th><th>Contacts"
        )
    };
}

// The head of a table of authorizations.
macro_rules! authorizations {
    ($title:literal, $about:literal) => {
        table!(
            $title,
            $about,
            "Authorization</th><th>Account</th><th>Status</th><th>Ends</th><th>Name</th><th>Challenges"
        )
    };
}

/// The beginning of the page, up to the base of the desk.
pub(crate) const HEAD: &str = "\
    <!doctype html>\n<html lang=\"en\"><head><meta charset=\"utf-8\"><title>desk</title>\n<style>\n\
    body{max-width:1120px;margin:2em auto;padding:0 1em;font:15px/1.5 sans-serif;color:#222;background:#f7f7f7}\n\
    h1{font-size:1.5em}h2{margin:1.8em 0 0;font-size:1.2em}p{margin:.3em 0;color:#555}\n\
    pre,table{margin:.6em 0;background:#fff;border:1px solid #ddd}pre{padding:.8em 1em}\n\
    table{width:100%;table-layout:fixed;border-collapse:collapse}table:has(tbody:empty){display:none}\n\
    th,td{padding:.4em .8em;text-align:left;vertical-align:top;border-bottom:1px solid #eee}\n\
    th{background:#eee}th:nth-child(-n+3){width:7.2em}th:nth-child(4){width:12em}td>*{display:block;overflow-wrap:anywhere}\n\
    .valid{color:#17703a}.ready,.processing{color:#96600a}.invalid,.deactivated,.expired,.revoked{color:#a32626}\n\
    </style></head><body>\n<h1>The desk of <code>";

/// What stands between its base and its clock.
pub(crate) const CLOCK: &str =
    "</code></h1>\n<p>Its clock, the latest moment at which it recorded something: <b>";

/// What stands between its clock and the counts of its objects.
pub(crate) const COUNTS: &str =
    "</b></p>\n<p>A table shows the first 50 rows, by number.</p>\n<h2>Objects by status</h2>\n<pre>";

/// What stands behind the counts.
pub(crate) const COUNTED: &str = "</pre>\n";

/// The head of the table of what waits for the validator.
pub(crate) const UNREPORTED: &str = authorizations!(
    "Waiting for the validator",
    "Authorizations that are pending, with a challenge that is processing."
);

/// The head of the table of what waits for the signing office.
pub(crate) const PROCESSING: &str = orders!(
    "Waiting for the signing office",
    "Orders that are processing."
);

/// The head of the table of orders that end soon.
pub(crate) const ENDING_ORDERS: &str = orders!(
    "Orders that end within a day",
    "Pending, ready or processing, with an end less than 86400 seconds after the desk's clock."
);

/// The head of the table of authorizations that end soon.
pub(crate) const ENDING_AUTHORIZATIONS: &str = authorizations!(
    "Authorizations that end within a day",
    "Pending or valid, with an end less than 86400 seconds after the desk's clock."
);

/// The head of the table of the last orders.
pub(crate) const LAST_ORDERS: &str = orders!("The last orders", "The 20 that were made last.");

/// The end of the page.
pub(crate) const END: &str = "</body></html>\n";
