//! Responses of HTTP/1.1 in a text, as rows tell them.

use juniper_http::PAGE;
use std::alloc::{AllocError, Global};

/// Of each response its status, its media type and its body, with ` | ` between each two.
pub fn responses_in(alloc: Global, sent: &str) -> Result<String, AllocError> {
    let mut shown = String::new(alloc);
    let mut is_first = true;
    for response in sent.split("HTTP/1.").skip(1) {
        if !is_first {
            shown.push_str(" | ")?;
        }
        is_first = false;
        put_response(response, &mut shown)?;
    }
    Ok(shown)
}

/// Of a response its status and its fields but the length of its body, with ` ;; ` between each two.
pub fn head_in(alloc: Global, sent: &str) -> Result<String, AllocError> {
    let mut shown = String::new(alloc);
    let (head, _) = sent.split_once("\r\n\r\n").unwrap_or((sent, ""));
    shown.push_str(head.get(9..12).unwrap_or(""))?;
    let mut is_first = true;
    for field in head.split("\r\n").skip(1) {
        if !field.starts_with("content-length: ") {
            shown.push_str(if is_first { " " } else { " ;; " })?;
            shown.push_str(field)?;
            is_first = false;
        }
    }
    Ok(shown)
}

/// Writes the status of a response, its media type and its body.
fn put_response(response: &str, shown: &mut String) -> Result<(), AllocError> {
    let (head, body) = response.split_once("\r\n\r\n").unwrap_or((response, ""));
    shown.push_str(head.get(2..5).unwrap_or(""))?;
    for field in head.split("\r\n") {
        if let Some(media) = field.strip_prefix("content-type: ") {
            write!(shown, " {media}")?;
        }
    }
    put_body(body, shown)
}

/// Writes a body, where there is one; `page` is the page for people.
fn put_body(body: &str, shown: &mut String) -> Result<(), AllocError> {
    if body.is_empty() {
        Ok(())
    } else if body == PAGE {
        shown.push_str(" page")
    } else {
        write!(shown, " {body}")
    }
}
