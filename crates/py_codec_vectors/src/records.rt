use crate::codec::{Expected, Refusal};
use crate::words::Unread;
use py_codec::{Encoding, Handler};
use py_plain::Newlines;
use py_plain_text::PlainSettings;

/// The records of a table that are left to read; one that is cut is malformed.
#[derive(Drop)]
pub(crate) struct Records<'a> {
    left: &'a [u8],
}

impl<'a> Records<'a> {
    pub(crate) fn new(bytes: &'a [u8]) -> Self {
        Records { left: bytes }
    }

    pub(crate) fn byte(&mut self) -> Result<u8, Unread> {
        let [byte, left @ ..] = self.left else {
            return Err(Unread::Malformed);
        };
        self.left = left;
        Ok(*byte)
    }

    /// A length, in one byte, and n bytes.
    pub(crate) fn counted(&mut self) -> Result<&'a [u8], Unread> {
        let count = usize::from(self.byte()?);
        match self.left.split_at_checked(count) {
            Some((counted, left)) => {
                self.left = left;
                Ok(counted)
            }
            None => Err(Unread::Malformed),
        }
    }

    pub(crate) fn encoding(&mut self) -> Result<Encoding, Unread> {
        match self.byte()? {
            0 => Ok(Encoding::Utf8),
            1 => Ok(Encoding::Latin1),
            2 => Ok(Encoding::Ascii),
            3 => Ok(Encoding::Utf16Le),
            4 => Ok(Encoding::Utf16Be),
            _ => Err(Unread::Malformed),
        }
    }

    fn handler(&mut self) -> Result<Handler, Unread> {
        match self.byte()? {
            0 => Ok(Handler::Strict),
            1 => Ok(Handler::Ignore),
            2 => Ok(Handler::Replace),
            3 => Ok(Handler::BackslashReplace),
            4 => Ok(Handler::SurrogateEscape),
            _ => Err(Unread::Malformed),
        }
    }

    fn newline(&mut self) -> Result<Newlines, Unread> {
        match self.byte()? {
            0 => Ok(Newlines::Universal),
            1 => Ok(Newlines::Passthrough),
            2 => Ok(Newlines::Lf),
            3 => Ok(Newlines::Cr),
            4 => Ok(Newlines::Crlf),
            _ => Err(Unread::Malformed),
        }
    }

    /// What a text is read by.
    pub(crate) fn settings(&mut self) -> Result<PlainSettings, Unread> {
        Ok(PlainSettings {
            encoding: self.encoding()?,
            handler: self.handler()?,
            newline: self.newline()?,
        })
    }

    /// A size, or none.
    pub(crate) fn size(&mut self) -> Result<Option<usize>, Unread> {
        let size = self.byte()?;
        Ok((size != 255).then_some(usize::from(size)))
    }

    /// A refused range or run: `None` where all is accepted.
    pub(crate) fn refusal(&mut self) -> Result<Option<Refusal>, Unread> {
        let start = self.byte()?;
        if start == 255 {
            return Ok(None);
        }
        let end = self.byte()?;
        Ok(Some(Refusal {
            start: u64::from(start),
            end: u64::from(end),
        }))
    }

    /// A refusal, or what comes of an argument that is so long.
    pub(crate) fn answer(&mut self, used: usize) -> Result<Expected<'a>, Unread> {
        match self.refusal()? {
            Some(refusal) => Ok(Expected::Refused(refusal, None)),
            None => Ok(Expected::All(self.counted()?, used)),
        }
    }
}
