//! A run as its user sees it: the words that it was started with, and all that it wrote.
use crate::ending::Ending;
use crate::traffic::Traffic;
use std::alloc::{AllocError, Global};

// Whether a byte may stand in a line that is read: bytes of UTF-8 past ASCII may.
fn is_shown(byte: u8) -> bool {
    byte == b'\n' || (byte >= 0x20 && byte != 0x7f)
}

// Bytes as they can be read: as a text where they are one, else as a line of digits.
fn readable(alloc: Global, bytes: &[u8]) -> Result<String, AllocError> {
    if bytes.iter().all(|byte| is_shown(*byte)) {
        if let Ok(text) = std::str::from_utf8(bytes) {
            return String::from_str(alloc, text);
        }
    }
    let digits = hex::encode(alloc, bytes)?;
    format!(in alloc; "{digits}\n")
}

// The words of a run, as a shell takes them.
fn command_line(alloc: Global, words: &[String]) -> Result<String, AllocError> {
    let mut text = String::from_str(alloc, "$ tlbox")?;
    for word in words {
        if word.is_empty() || word.contains(' ') || word.contains('<') || word.contains('!') {
            text.push_str(&format!(in alloc; " '{word}'")?)?;
        } else {
            text.push_str(&format!(in alloc; " {word}")?)?;
        }
    }
    text.push('\n')?;
    Ok(text)
}

// A line for each link that was taken, with the digits of what was sent over it.
fn put_links(alloc: Global, text: &mut String, traffic: &Traffic) -> Result<(), AllocError> {
    for (i, start) in traffic.starts.iter().enumerate() {
        let end = traffic
            .starts
            .get(i.saturating_add(1))
            .copied()
            .unwrap_or(traffic.sent.len());
        let mut sent = Vec::new(alloc);
        for byte in traffic.sent.iter().take(end).skip(*start) {
            sent.push(*byte)?;
        }
        let digits = hex::encode(alloc, &sent)?;
        text.push_str(&format!(in alloc; "(link {i} was sent {digits})\n")?)?;
    }
    Ok(())
}

// What a run wrote, sent and saved, and how it ended.
fn put_ending(alloc: Global, text: &mut String, got: &Ending) -> Result<(), AllocError> {
    if !got.output.is_empty() {
        text.push_str(&readable(alloc, &got.output)?)?;
    }
    text.push_str(&readable(alloc, &got.errors)?)?;
    if got.status != 0 {
        let status = got.status;
        text.push_str(&format!(in alloc; "(status {status})\n")?)?;
    }
    put_links(alloc, text, &got.traffic)?;
    if !got.state.is_empty() {
        let digits = hex::encode(alloc, &got.state)?;
        text.push_str(&format!(in alloc; "(saved {digits})\n")?)?;
    }
    if !got.kept.is_empty() {
        let entries = readable(alloc, &got.kept)?;
        text.push_str(&format!(in alloc; "(kept, by date, id and number of posts) {entries}")?)?;
    }
    Ok(())
}

/// What a run of these words did: its Output and Errors, and in brackets its status, where it isn't 0, what it sent over links, what it saved, and how many
/// bytes of entries it kept.
pub fn shown_run(alloc: Global, words: &[String], got: &Ending) -> Result<String, AllocError> {
    let mut text = command_line(alloc, words)?;
    put_ending(alloc, &mut text, got)?;
    Ok(text)
}
