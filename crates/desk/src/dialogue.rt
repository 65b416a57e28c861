// Reading calls to the end of the input. A read takes what is there, be it a part of a line or several lines.
use crate::answers::{answer, refuse_long};
use crate::lines::Line;
use files::Told;
use open_market::Market;
use std::io::Read;

// The market after a line.
fn with_line(rt: &HostRuntime, market: Market, line: &Line) -> Result<Market, Told> {
    match line.text() {
        Some(text) => answer(rt, market, text),
        None => {
            refuse_long(rt)?;
            Ok(market)
        }
    }
}

// The market after all that was read, and the line whose end has not been read.
fn with_text(
    rt: &HostRuntime,
    market: Market,
    line: &mut Line,
    text: &[u8],
) -> Result<Market, Told> {
    let mut now = market;
    for piece in text.split_inclusive(|byte| *byte == b'\n') {
        match piece.strip_suffix(b"\n".as_slice()) {
            None => line.extend(piece),
            Some(last) => {
                line.extend(last);
                now = with_line(rt, now, line)?;
                line.clear();
            }
        }
    }
    Ok(now)
}

// The end of the input ends the last line. A read that fails leaves a line that may have been cut short, and so it is dropped. Nothing says
// that the input ends, and a proved loop has to: so there are as many turns as no input uses up.
pub(crate) fn talk(rt: &HostRuntime, opened: Market) -> Result<(), Told> {
    let mut market = opened;
    let mut line = Line::empty();
    let mut text = [0u8; 4096];
    for _ in 0..u64::MAX {
        match rt.stdin().read(&mut text) {
            Ok(0) => {
                with_line(rt, market, &line)?;
                return Ok(());
            }
            Ok(count) => market = with_text(rt, market, &mut line, &text[..count])?,
            Err(error) => {
                files::fail(rt, b"standard input", error);
                return Err(Told);
            }
        }
    }
    Ok(())
}
