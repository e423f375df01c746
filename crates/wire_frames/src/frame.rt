// The frames and what they are made of.
ghost use Rattle.std.specs.Prelude.{◌≡◌, IfOk};

use crate::copying::{copy_all, copy_both, copy_four, copy_three};
use crate::question::Question;
use crate::reply::Reply;
use apt_base::{Claim, ElementRef, List, Name, NoMemory};
use std::alloc::Global;

/// What the host says of itself to a child, first.
#[derive(Drop)]
pub struct Init {
    /// The processor's name.
    pub name: Name,
    /// The source level.
    pub level: u16,
    /// The options, as keys and their values.
    pub options: List<(Name, Name)>,
}

/// What a child says of its processor, first.
#[derive(Drop)]
pub struct Hello {
    /// The annotation names that it supports, as patterns.
    pub patterns: List<Name>,
    /// The names of the options that it supports.
    pub options: List<Name>,
    /// Whether it claims what it is offered.
    pub claim: Claim,
}

/// A file that a child creates (JSR 269, `Filer`).
#[derive(Drop)]
pub enum Creation {
    /// A source file.
    Source {
        /// The canonical name of its type, or its package's name and `.package-info`.
        name: Name,
        /// The file's bytes.
        content: List<u8>,
        /// The originating elements.
        origins: List<ElementRef>,
    },
    /// A resource.
    Resource {
        /// 0 for the class output, 1 for the source output, 2 for the output of native headers.
        location: u8,
        /// The package's name; empty for the unnamed package.
        package: Name,
        /// The path below the package.
        relative: Name,
        /// The file's bytes.
        content: List<u8>,
        /// The originating elements.
        origins: List<ElementRef>,
    },
    /// A class file.
    Class {
        /// The canonical name of its type.
        name: Name,
        /// The file's bytes.
        content: List<u8>,
        /// The originating elements.
        origins: List<ElementRef>,
    },
}

/// What a child prints (JSR 269, `Messager`).
#[derive(Drop)]
pub struct Message {
    /// 0 for an error, 1 for a warning, 2 for a mandatory warning, 3 for a note, 4 for any other kind.
    pub kind: u8,
    /// The element at which it is printed.
    pub element: Option<ElementRef>,
    /// The message.
    pub text: Name,
}

/// What the host and a child send each other, one at a time.
#[derive(Drop)]
pub enum Frame {
    /// The host's first.
    Init(Init),
    /// The host's, which begins a round.
    Round {
        /// The round's number, from 1.
        number: u32,
        /// Whether it is the last round, which has no root elements.
        over: bool,
        /// Whether an error was raised in a round before.
        error: bool,
        /// The annotation names that the processor is offered.
        offered: List<Name>,
        /// The root elements.
        roots: List<Name>,
    },
    /// The host's answer in a round.
    Reply(Reply),
    /// The child's first.
    Hello(Hello),
    /// The child's, which ends its round.
    Done {
        /// Whether it claims what it was offered.
        claimed: bool,
    },
    /// The child's, which the host answers by `Reply::Created`.
    Create(Creation),
    /// The child's, which the host answers by `Reply::Noted`.
    Message(Message),
    /// The child's, which the host answers by the reply of its question.
    Ask(Question),
}

// ---- copies

/// Equal options in the same order.
pub fn copy_options(alloc: Global, options: &[(Name, Name)]) -> Result<List<(Name, Name)>, NoMemory>
    ensures { IfOk result (λ list. list ≡ options.now) }
{
    copy_all(alloc, options)
}

impl Init {
    /// An equal frame of the host. It fails only when memory runs out.
    pub fn copy(&self, alloc: Global) -> Result<Init, NoMemory>
        ensures { IfOk result (λ init. init ≡ self.now) }
    {
        let (name, options) = copy_both(alloc, &self.name, &self.options)?;
        Ok(Init {
            name,
            level: self.level,
            options,
        })
    }
}

impl Hello {
    /// An equal frame of a child. It fails only when memory runs out.
    pub fn copy(&self, alloc: Global) -> Result<Hello, NoMemory>
        ensures { IfOk result (λ hello. hello ≡ self.now) }
    {
        let (patterns, options) = copy_both(alloc, &self.patterns, &self.options)?;
        Ok(Hello {
            patterns,
            options,
            claim: self.claim,
        })
    }
}

impl Creation {
    /// An equal creation. It fails only when memory runs out.
    pub fn copy(&self, alloc: Global) -> Result<Creation, NoMemory>
        ensures { IfOk result (λ creation. creation ≡ self.now) }
    {
        match self {
            Creation::Source {
                name,
                content,
                origins,
            } => {
                let (name, content, origins) = copy_three(alloc, name, content, origins)?;
                Ok(Creation::Source {
                    name,
                    content,
                    origins,
                })
            }
            Creation::Resource {
                location,
                package,
                relative,
                content,
                origins,
            } => {
                let (package, relative, content, origins) = copy_four(
                    alloc, package, relative, content, origins,
                )?;
                Ok(Creation::Resource {
                    location: *location,
                    package,
                    relative,
                    content,
                    origins,
                })
            }
            Creation::Class {
                name,
                content,
                origins,
            } => {
                let (name, content, origins) = copy_three(alloc, name, content, origins)?;
                Ok(Creation::Class {
                    name,
                    content,
                    origins,
                })
            }
        }
    }
}

impl Message {
    /// An equal message. It fails only when memory runs out.
    pub fn copy(&self, alloc: Global) -> Result<Message, NoMemory>
        ensures { IfOk result (λ message. message ≡ self.now) }
    {
        let (element, text) = copy_both(alloc, &self.element, &self.text)?;
        Ok(Message {
            kind: self.kind,
            element,
            text,
        })
    }
}

impl Frame {
    /// An equal frame. It fails only when memory runs out.
    pub fn copy(&self, alloc: Global) -> Result<Frame, NoMemory>
        ensures { IfOk result (λ frame. frame ≡ self.now) }
    {
        match self {
            Frame::Init(init) => Ok(Frame::Init(init.copy(alloc)?)),
            Frame::Round {
                number,
                over,
                error,
                offered,
                roots,
            } => {
                let (offered, roots) = copy_both(alloc, offered, roots)?;
                Ok(Frame::Round {
                    number: *number,
                    over: *over,
                    error: *error,
                    offered,
                    roots,
                })
            }
            Frame::Reply(reply) => Ok(Frame::Reply(reply.copy(alloc)?)),
            Frame::Hello(hello) => Ok(Frame::Hello(hello.copy(alloc)?)),
            Frame::Done { claimed } => Ok(Frame::Done { claimed: *claimed }),
            Frame::Create(creation) => Ok(Frame::Create(creation.copy(alloc)?)),
            Frame::Message(message) => Ok(Frame::Message(message.copy(alloc)?)),
            Frame::Ask(question) => Ok(Frame::Ask(question.copy(alloc)?)),
        }
    }
}
