//! The shapes of a picture, and its text.
use jobtext::Names;
use page::{Page, after, plus};

// How each kind looks.
const STYLE: &[u8] = b"<style>text{font:13px ui-monospace,Menlo,Consolas,monospace;fill:#1f2933}
.head{font-size:15px;font-weight:bold}.title{font-weight:bold}.small{font-size:11px;fill:#7b8794}
.name{text-anchor:end}.back{fill:#fff}.window{fill:#eef1f5}.high{fill:#e8590c}.low{fill:#1c7ed6}
.grid{stroke:#e4e7eb}.bracket{fill:none;stroke:#7b8794;stroke-width:1.5}
.switch{stroke:#c2255c;stroke-width:2;stroke-dasharray:5 4}</style>
";

// A number, after the text that opens its quotes.
fn attribute(page: Page, s: &[u8], n: usize) -> Page {
    page.put(s).number(n).put(b"\"")
}

// The start of an element, with its class.
fn element(page: Page, kind: &[u8], class: &[u8]) -> Page {
    page.put(kind).put(b" class=\"").put(class)
}

/// An upright rectangle, by its upper left corner.
#[derive(Clone, Copy)]
pub struct Rectangle {
    pub x: usize,
    pub y: usize,
    pub width: usize,
    pub height: usize,
}

impl Rectangle {
    /// Puts it, in the look of a class.
    pub fn put(self, page: Page, class: &[u8]) -> Page {
        let at = attribute(element(page, b"<rect", class), b"\" x=\"", self.x);
        let down = attribute(at, b" y=\"", self.y);
        let across = attribute(down, b" width=\"", self.width);
        attribute(across, b" height=\"", self.height).line(b" rx=\"3\"/>")
    }
}

/// A line downwards.
pub fn upright(page: Page, class: &[u8], x: usize, from: usize, to: usize) -> Page {
    let at = attribute(element(page, b"<line", class), b"\" x1=\"", x);
    let down = attribute(attribute(at, b" x2=\"", x), b" y1=\"", from);
    attribute(down, b" y2=\"", to).line(b"/>")
}

/// The start of a text, to its first byte.
pub fn text_at(page: Page, class: &[u8], x: usize, y: usize) -> Page {
    let at = attribute(element(page, b"<text", class), b"\" x=\"", x);
    attribute(at, b" y=\"", y).put(b">")
}

/// The end of a text.
pub fn text_end(page: Page) -> Page {
    page.line(b"</text>")
}

/// A whole text.
pub fn label(page: Page, class: &[u8], x: usize, y: usize, s: &[u8]) -> Page {
    text_end(text_at(page, class, x, y).put(s))
}

// A byte of a name.
fn put_letter(page: Page, x: &u8) -> Page {
    match *x {
        b'<' => page.put(b"&lt;"),
        b'>' => page.put(b"&gt;"),
        b'&' => page.put(b"&amp;"),
        letter => page.put(&[letter]),
    }
}

/// The name of a job, as a picture's text has to have it.
pub fn name(page: Page, names: &Names, j: usize) -> Page {
    let letters = names.letters(j);
    if letters.is_empty() {
        return names.put(page, j);
    }
    letters.iter().fold(page, put_letter)
}

// A bracket: an upright with a short arm at each end.
pub(crate) fn bracket(page: Page, x: usize, y: usize, arm: &[u8], back: &[u8]) -> Page {
    let corner = page
        .put(b"<path class=\"bracket\" d=\"M")
        .number(x)
        .put(b" ")
        .number(after(y));
    corner.put(arm).put(b"v22").put(back).line(b"\"/>")
}

// The size, in which the picture is drawn and may be scaled.
fn size(page: Page, w: usize, h: usize) -> Page {
    let fixed = attribute(attribute(page, b" width=\"", w), b" height=\"", h);
    attribute(fixed.put(b" viewBox=\"0 0 ").number(w), b" ", h)
}

/// The start of a picture: its size, how each kind looks, and its back.
pub fn head(page: Page, width: usize, height: usize) -> Page {
    let opened = page.put(b"<svg xmlns=\"http://www.w3.org/2000/svg\"");
    let styled = size(opened, width, height).line(b">").put(STYLE);
    let back = Rectangle {
        x: 0,
        y: 0,
        width,
        height,
    };
    back.put(styled, b"back")
}

/// What a colour says.
pub fn key(page: Page, class: &[u8], x: usize, s: &[u8]) -> Page {
    let colour = Rectangle {
        x,
        y: 46,
        width: 18,
        height: 14,
    };
    label(colour.put(page, class), b"key", plus(x, 24), 58, s)
}
