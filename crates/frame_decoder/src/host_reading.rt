// Reads what the host sends first, and what begins a round.
ghost use Rattle.std.specs.Prelude.{◌≡◌, None};
ghost use Rattle.std.specs.Option.{option_copied};
ghost use Rattle.apt_base.specs.Forms.{list_next};
ghost use Rattle.apt_base.specs.Readings.{Gives};
ghost use Rattle.frame_decoder.specs.HostReadings.{is_above, texts_ascend, options_ascend, ascending_next, option_next, options_next, init_next, round_next};

use apt_base::{FieldReader, FormFault, List, Name, read_count, read_text, read_texts, read_truth};
use std::alloc::Global;
use wire_frames::{Frame, Init, read_step};

// ---- lists that ascend

fn is_above(last: Option<&str>, text: &str) -> bool
    ensures { result ≡ is_above (option_copied last.entry) text.now }
{
    match last {
        None => true,
        Some(last) => last < text,
    }
}

fn texts_ascend(texts: &[Name]) -> bool
    ensures { result ≡ texts_ascend None texts.now }
{
    let mut last: Option<&str> = None;
    for text in texts {
        if !is_above(last, text.as_str()) {
            return false;
        }
        last = Some(text.as_str());
    }
    true
}

fn options_ascend(options: &[(Name, Name)]) -> bool
    ensures { result ≡ options_ascend None options.now }
{
    let mut last: Option<&str> = None;
    for option in options {
        if !is_above(last, option.0.as_str()) {
            return false;
        }
        last = Some(option.0.as_str());
    }
    true
}

#[tactic(auto, unfolding(crate::specs::HostReadings::ascending_next))]
fn ascending_texts(alloc: Global, reader: &mut FieldReader<'_>) -> Result<List<Name>, FormFault>
    ensures { Gives result (ascending_next reader.old) reader.new }
{
    let texts = read_texts(alloc, reader)?;
    if texts_ascend(texts.as_slice()) {
        Ok(texts)
    } else {
        Err(FormFault::Bad)
    }
}

#[tactic(auto, unfolding(crate::specs::HostReadings::option_next))]
fn option(alloc: Global, reader: &mut FieldReader<'_>) -> Result<(Name, Name), FormFault>
    ensures { Gives result (option_next reader.old) reader.new }
{
    let key = read_text(alloc, reader)?;
    let value = read_text(alloc, reader)?;
    Ok((key, value))
}

#[tactic(auto, unfolding(apt_base::specs::Forms::list_next))]
fn any_options(alloc: Global, reader: &mut FieldReader<'_>) -> Result<List<(Name, Name)>, FormFault>
    ensures { Gives result (list_next option_next reader.old) reader.new }
{
    let count = read_count(reader)?;
    let mut items = List::new(alloc);
    for _ in 0..count {
        let item = option(alloc, reader)?;
        items.push(item)?;
    }
    Ok(items)
}

#[tactic(auto, unfolding(crate::specs::HostReadings::options_next))]
fn options(alloc: Global, reader: &mut FieldReader<'_>) -> Result<List<(Name, Name)>, FormFault>
    ensures { Gives result (options_next reader.old) reader.new }
{
    let options = any_options(alloc, reader)?;
    if options_ascend(options.as_slice()) {
        Ok(options)
    } else {
        Err(FormFault::Bad)
    }
}

// ---- frames

/// The fields of Init that stand next. It is Bad where they are none, and Memory when memory runs out.
#[tactic(auto, unfolding(crate::specs::HostReadings::init_next))]
pub(crate) fn read_init(alloc: Global, reader: &mut FieldReader<'_>) -> Result<Frame, FormFault>
    ensures { Gives result (init_next reader.old) reader.new }
{
    let name = read_text(alloc, reader)?;
    let level = read_step(reader)?;
    let options = options(alloc, reader)?;
    Ok(Frame::Init(Init {
        name,
        level,
        options,
    }))
}

/// The fields of Round that stand next. It is Bad where they are none, and Memory when memory runs out.
#[tactic(auto, unfolding(crate::specs::HostReadings::round_next))]
pub(crate) fn read_round(alloc: Global, reader: &mut FieldReader<'_>) -> Result<Frame, FormFault>
    ensures { Gives result (round_next reader.old) reader.new }
{
    let number = read_count(reader)?;
    let over = read_truth(reader)?;
    let error = read_truth(reader)?;
    let offered = ascending_texts(alloc, reader)?;
    let roots = ascending_texts(alloc, reader)?;
    Ok(Frame::Round {
        number,
        over,
        error,
        offered,
        roots,
    })
}
