// What a person is told: schemas, and the finished register.
use problems::Schema;
use registers::register::Register;
use std::io;
use words::tokens::{Token, token_at};

// A schema in a line: its kinds, and the ends of its links.
pub(crate) fn tell_schema(
    rt: &impl Print,
    name: &str,
    words: &[u32],
    schema: Schema,
) -> io::Result<()> {
    let kinds = schema.kinds;
    print!(rt; "{name} schema: kinds {kinds}, links")?;
    // Until there is no such link: a schema counts its links by a wider type than their numbers have.
    for (from, to) in (0..u32::MAX).map_while(|link| schema.ends(words, link)) {
        print!(rt; " {from}->{to}")?;
    }
    println!(rt; "")
}

// The records of each kind of the source.
pub(crate) fn tell_source<R: Register>(rt: &impl Print, source: &R) -> io::Result<()> {
    print!(rt; "source records by kind:")?;
    for kind in 0..source.kinds() {
        let records = source.count(kind);
        print!(rt; " {records}")?;
    }
    println!(rt; "")
}

// The finished words by their tokens: the count of each kind, where each link leads each record, and each landing.
pub(crate) fn tell_register(rt: &impl Print, words: &[u32]) -> io::Result<()> {
    // Counted by hand: no place tells the number of a kind or a link, since the records of links stand between.
    let mut kind = 0u32;
    let mut link = 0u32;
    for token in (0..words.len()).filter_map(|at| token_at(words, at).ok()) {
        match token {
            Token::Count(records) => {
                print!(rt; "\nkind {kind}: {records} records")?;
                kind = kind.saturating_add(1);
            }
            Token::RegisterLink { from, to } => {
                print!(rt; "\nlink {link}, {from}->{to}, leads to")?;
                link = link.saturating_add(1);
            }
            Token::Landings { source, target, .. } => {
                print!(rt; "\nsource kind {source} landed in kind {target} at")?;
            }
            Token::Record(record) => print!(rt; " {record}")?,
            _ => {}
        }
    }
    println!(rt; "")
}

// A line of words in hexadecimal.
fn tell_line(rt: &impl Print, words: &[u32]) -> io::Result<()> {
    for (i, word) in words.iter().enumerate() {
        let before = if i == 0 { "" } else { " " };
        print!(rt; "{before}{word:08X}")?;
    }
    println!(rt; "")
}

// The words, eight to a line.
pub(crate) fn tell_words(rt: &impl Print, words: &[u32]) -> io::Result<()> {
    for line in words.chunks(8) {
        tell_line(rt, line)?;
    }
    Ok(())
}
