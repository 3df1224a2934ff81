//! Constants, by what they say.
ghost use Rattle.std.specs.Prelude.{◌≡◌, IfOk, length, nat_le};
ghost use Rattle.class_grammar.specs.ModifiedUtf8.{modified_utf8};
ghost use Rattle.asm_constants.specs.Contents.{needed, tag_of};
ghost use Rattle.asm_constants.specs.Entries.{content_tag};
ghost use Rattle.asm_constants.specs.Pools.{is_short, places};

use class_texts::utf8_length;
use jx_base::{OutOfMemory, Text};
use std::alloc::Global;

const MAX_LENGTH: usize = 65_535;

/// What a reference to a member refers to (JVMS 4.4.2).
#[derive(Clone, Copy, PartialEq, Eq, Hash)]
pub enum Reference {
    Field,
    Method,
    InterfaceMethod,
}

/// A constant (JVMS 4.4) with what it says in place of the indices of its parts. A reference has
/// the names of its class and its member, and the member's descriptor.
#[derive(PartialEq, Eq, Hash, Drop)]
pub enum Content {
    Utf8(Text),
    Integer(i32),
    Long(i64),
    Class(Text),
    Str(Text),
    NameAndType(Text, Text),
    Member(Reference, Text, Text, Text),
}

fn is_short_text(units: &[u16]) -> bool
    ensures { result ≡ nat_le (length (modified_utf8 units.now)) 65535 }
{
    units.len() <= MAX_LENGTH && utf8_length(units) <= MAX_LENGTH as u32
}

pub(crate) fn text_content(alloc: Global, units: &Text) -> Result<Content, OutOfMemory>
    ensures { IfOk result (λ content. content ≡ Content.Utf8 units.now) }
{
    Ok(Content::Utf8(units.copy(alloc)?))
}

pub(crate) fn class_content(alloc: Global, name: &Text) -> Result<Content, OutOfMemory>
    ensures { IfOk result (λ content. content ≡ Content.Class name.now) }
{
    Ok(Content::Class(name.copy(alloc)?))
}

pub(crate) fn pair_content(
    alloc: Global,
    name: &Text,
    descriptor: &Text,
) -> Result<Content, OutOfMemory>
    ensures { IfOk result (λ content. content ≡ Content.NameAndType name.now descriptor.now) }
{
    Ok(Content::NameAndType(name.copy(alloc)?, descriptor.copy(alloc)?))
}

impl Reference {
    // Its tag in a class file.
    #[tactic(auto, unfolding(crate::specs::Contents::tag_of))]
    fn tag(self) -> u8
        ensures { result ≡ tag_of self }
    {
        match self {
            Reference::Field => 9,
            Reference::Method => 10,
            Reference::InterfaceMethod => 11,
        }
    }
}

impl Content {
    /// Its tag in a class file.
    #[tactic(auto, unfolding(crate::specs::Entries::content_tag))]
    pub(crate) fn tag(&self) -> u8
        ensures { result ≡ content_tag self.now }
    {
        match self {
            Content::Utf8(_) => 1,
            Content::Integer(_) => 3,
            Content::Long(_) => 5,
            Content::Class(_) => 7,
            Content::Str(_) => 8,
            Content::NameAndType(_, _) => 12,
            Content::Member(kind, _, _, _) => kind.tag(),
        }
    }

    /// How many indices it takes up.
    #[tactic(auto, unfolding(crate::specs::Pools::places))]
    pub(crate) fn places(&self) -> usize
        ensures { result ≡ places self.now }
    {
        match self {
            Content::Long(_) => 2,
            _ => 1,
        }
    }

    /// Whether a class file can have it: a text has at most 65,535 bytes.
    #[tactic(auto, unfolding(crate::specs::Pools::is_short))]
    pub(crate) fn is_short(&self) -> bool
        ensures { result ≡ is_short self.now }
    {
        match self {
            Content::Utf8(units) => is_short_text(units.as_slice()),
            _ => true,
        }
    }

    /// The same constant once more.
    pub fn copy(&self, alloc: Global) -> Result<Content, OutOfMemory>
        ensures { IfOk result (λ content. content ≡ self.now) }
    {
        Ok(match self {
            Content::Utf8(units) => Content::Utf8(units.copy(alloc)?),
            Content::Integer(number) => Content::Integer(*number),
            Content::Long(number) => Content::Long(*number),
            Content::Class(name) => Content::Class(name.copy(alloc)?),
            Content::Str(units) => Content::Str(units.copy(alloc)?),
            Content::NameAndType(name, descriptor) => {
                Content::NameAndType(name.copy(alloc)?, descriptor.copy(alloc)?)
            }
            Content::Member(kind, class, name, descriptor) => Content::Member(
                *kind,
                class.copy(alloc)?,
                name.copy(alloc)?,
                descriptor.copy(alloc)?,
            ),
        })
    }

    /// The constant behind those that it names.
    #[tactic(auto, unfolding(crate::specs::Contents::needed))]
    pub(crate) fn with_parts(&self, alloc: Global) -> Result<Vec<Content>, OutOfMemory>
        ensures { IfOk result (λ contents. contents.items ≡ needed self.now) }
    {
        let mut contents = Vec::new(alloc);
        match self {
            Content::Class(name) => contents.push(text_content(alloc, name)?)?,
            Content::Str(units) => contents.push(text_content(alloc, units)?)?,
            Content::NameAndType(name, descriptor) => {
                contents.push(text_content(alloc, name)?)?;
                contents.push(text_content(alloc, descriptor)?)?;
            }
            Content::Member(_, class, name, descriptor) => {
                contents.push(text_content(alloc, class)?)?;
                contents.push(class_content(alloc, class)?)?;
                contents.push(text_content(alloc, name)?)?;
                contents.push(text_content(alloc, descriptor)?)?;
                contents.push(pair_content(alloc, name, descriptor)?)?;
            }
            Content::Utf8(_) | Content::Integer(_) | Content::Long(_) => {}
        }
        contents.push(self.copy(alloc)?)?;
        Ok(contents)
    }
}
