//! What the arguments of the command line ask for.
use crate::command::{Arguments, Asked, Settings, Target, Task};
use crate::misuse::Misuse;
use program_text::parted::part_words;
use program_text::words::{Word, texts};
use std::alloc::{AllocError, Global};

/// The options that have a value, which is the next word.
const VALUED: &[&str] = &["-n", "-e", "-t"];

/// The options.
#[derive(Drop)]
struct Options<'w> {
    help: bool,
    version: bool,
    settings: Settings<'w>,
    /// The patterns, in order, and the template of each, if it has one.
    patterns: Vec<String>,
    templates: Vec<Option<&'w [u8]>>,
}

/// What the next word of the options is.
#[derive(Clone, Copy)]
enum Next {
    Name,
    /// The value of `-n`.
    Limit,
    /// The value of `-e`.
    Pattern,
    /// The value of `-t`.
    Template,
}

/// Returns what the arguments ask for, or why they are wrong. The only other error is that allocation failed.
pub fn parse<'w>(
    alloc: Global,
    words: &[Word<'w>],
) -> Result<Result<Asked<'w>, Misuse<'w>>, AllocError> {
    match asked_of(alloc, words) {
        Err(Misuse::Memory) => Err(AllocError),
        asked => Ok(asked),
    }
}

/// Returns what the arguments ask for, or why they are wrong.
fn asked_of<'w>(alloc: Global, words: &[Word<'w>]) -> Result<Asked<'w>, Misuse<'w>> {
    let parted = part_words(alloc, VALUED, words)?;
    let options = options_of(alloc, &parted.options)?;
    if options.help {
        return Ok(Asked::Help);
    }
    if options.version {
        return Ok(Asked::Version);
    }
    work_of(alloc, options, &parted.operands)
}

/// Reads the options with their values.
fn options_of<'w>(alloc: Global, words: &[Word<'w>]) -> Result<Options<'w>, Misuse<'w>> {
    let mut options = Options {
        help: false,
        version: false,
        settings: Settings {
            fixed: false,
            ignore_case: false,
            whole: false,
            limit: None,
            target: Target::Output,
            preview: false,
        },
        patterns: Vec::new(alloc),
        templates: Vec::new(alloc),
    };
    let mut next = Next::Name;
    for word in words {
        next = read_option(alloc, &mut options, next, *word)?;
    }
    match next {
        Next::Name => Ok(options),
        Next::Limit => Err(Misuse::NoValue("-n needs a number")),
        Next::Pattern => Err(Misuse::NoValue("-e needs a pattern")),
        Next::Template => Err(Misuse::NoValue("-t needs a template")),
    }
}

/// Reads a word of the options, and returns what the next one is.
fn read_option<'w>(
    alloc: Global,
    options: &mut Options<'w>,
    next: Next,
    word: Word<'w>,
) -> Result<Next, Misuse<'w>> {
    match next {
        Next::Limit => options.settings.limit = Some(number_of(word.text()?)?),
        Next::Pattern => {
            options
                .patterns
                .push(String::from_str(alloc, word.text()?)?)?;
            options.templates.push(None)?;
        }
        Next::Template => set_template(&mut options.templates, word.bytes)?,
        Next::Name => return read_name(options, word.text()?),
    }
    Ok(Next::Name)
}

/// Gives the last pattern this template, if there is a pattern, and it has none.
fn set_template<'w>(
    templates: &mut Vec<Option<&'w [u8]>>,
    bytes: &'w [u8],
) -> Result<(), Misuse<'w>> {
    match templates.pop() {
        Some(None) => {
            templates.push(Some(bytes))?;
            Ok(())
        }
        _ => Err(Misuse::NoPattern),
    }
}

/// Reads the name of an option, and returns what comes after it.
fn read_name<'w>(options: &mut Options<'w>, word: &'w str) -> Result<Next, Misuse<'w>> {
    match word {
        "-h" | "--help" => options.help = true,
        "--version" => options.version = true,
        "-n" => return Ok(Next::Limit),
        "-e" => return Ok(Next::Pattern),
        "-t" => return Ok(Next::Template),
        other => set_switch(&mut options.settings, other)?,
    }
    Ok(Next::Name)
}

/// Reads the name of an option that has no value in a word of its own.
fn set_switch<'w>(settings: &mut Settings<'w>, word: &'w str) -> Result<(), Misuse<'w>> {
    match word {
        "-F" => settings.fixed = true,
        "-i" => settings.ignore_case = true,
        "--whole" => settings.whole = true,
        "--preview" => settings.preview = true,
        "--in-place" => settings.target = Target::Files(None),
        other => match other.strip_prefix("--in-place=") {
            Some(suffix) if is_suffix(suffix) => settings.target = Target::Files(Some(suffix)),
            Some(_) => return Err(Misuse::NoSuffix),
            None => return Err(Misuse::NoOption(word)),
        },
    }
    Ok(())
}

/// Returns the number that the word says.
fn number_of<'w>(word: &'w str) -> Result<usize, Misuse<'w>> {
    match word.parse() {
        Ok(number) => Ok(number),
        Err(_) => Err(Misuse::NoNumber(word)),
    }
}

/// Returns whether the suffix makes another name of a file in the same folder.
fn is_suffix(suffix: &str) -> bool {
    !suffix.is_empty() && !suffix.contains('/')
}

/// Returns the work that these options and the other words ask for.
fn work_of<'w>(
    alloc: Global,
    options: Options<'w>,
    words: &[Word<'w>],
) -> Result<Asked<'w>, Misuse<'w>> {
    let Options {
        settings,
        patterns,
        templates: given,
        ..
    } = options;
    let (name, words) = match words {
        [name, words @ ..] => (name.text()?, words),
        [] => return Err(Misuse::NoCommand),
    };
    let needs = needs_of(name)?;
    let (patterns, words) = patterns_of(alloc, patterns, needs, words)?;
    let (task, words) = task_of(name, needs, words)?;
    let (templates, files) = templates_of(alloc, task, &given, patterns.len(), needs, words)?;
    if settings.limit.is_some() && !matches!(task, Task::Replace) {
        return Err(Misuse::LimitOfFields);
    }
    let files = texts(alloc, files)??;
    check(task, settings, &files)?;
    Ok(Asked::Work(Arguments {
        task,
        settings,
        patterns,
        templates,
        files,
    }))
}

/// Returns the patterns, of which the first word is the only one if options give none, and the words after it.
fn patterns_of<'p, 'w>(
    alloc: Global,
    given: Vec<String>,
    needs: &'static str,
    words: &'p [Word<'w>],
) -> Result<(Vec<String>, &'p [Word<'w>]), Misuse<'w>> {
    if !given.is_empty() {
        return Ok((given, words));
    }
    let mut patterns = given;
    match words {
        [pattern, words @ ..] => {
            patterns.push(String::from_str(alloc, pattern.text()?)?)?;
            Ok((patterns, words))
        }
        [] => Err(Misuse::Short(needs)),
    }
}

/// Returns what the command of this name needs.
fn needs_of<'w>(name: &'w str) -> Result<&'static str, Misuse<'w>> {
    match name {
        "replace" => Ok("replace needs PATTERN and TEMPLATE"),
        "split" => Ok("split needs PATTERN"),
        "splitn" => Ok("splitn needs PATTERN and LIMIT"),
        _ => Err(Misuse::NoSuch(name)),
    }
}

/// Returns the command of this name, and the words after its limit, if it has one. These words are after the pattern.
fn task_of<'p, 'w>(
    name: &'w str,
    needs: &'static str,
    words: &'p [Word<'w>],
) -> Result<(Task, &'p [Word<'w>]), Misuse<'w>> {
    match (name, words) {
        ("replace", words) => Ok((Task::Replace, words)),
        ("split", words) => Ok((Task::Split, words)),
        (_, [limit, words @ ..]) => Ok((Task::SplitN(number_of(limit.text()?)?), words)),
        (_, []) => Err(Misuse::Short(needs)),
    }
}

/// Returns the template of each of `count` patterns, and the words that name files. The first word is the template of
/// all, if options give none.
fn templates_of<'p, 'w>(
    alloc: Global,
    task: Task,
    given: &[Option<&'w [u8]>],
    count: usize,
    needs: &'static str,
    words: &'p [Word<'w>],
) -> Result<(Vec<&'w [u8]>, &'p [Word<'w>]), Misuse<'w>> {
    let templates = all_given(alloc, given)?;
    if !matches!(task, Task::Replace) {
        return if templates.is_empty() {
            Ok((templates, words))
        } else {
            Err(Misuse::TemplateOfFields)
        };
    }
    if !templates.is_empty() {
        return Ok((templates, words));
    }
    match words {
        [template, files @ ..] => Ok((copies(alloc, template.bytes, count)?, files)),
        [] => Err(Misuse::Short(needs)),
    }
}

/// Returns the templates that options give: one for each pattern, or none.
fn all_given<'w>(alloc: Global, given: &[Option<&'w [u8]>]) -> Result<Vec<&'w [u8]>, Misuse<'w>> {
    let mut templates = Vec::new(alloc);
    for template in given {
        if let Some(template) = *template {
            templates.push(template)?;
        }
    }
    if templates.is_empty() || templates.len() == given.len() {
        Ok(templates)
    } else {
        Err(Misuse::NoTemplate)
    }
}

/// Returns the template as often as this.
fn copies<'w>(
    alloc: Global,
    template: &'w [u8],
    count: usize,
) -> Result<Vec<&'w [u8]>, AllocError> {
    let mut templates = Vec::new(alloc);
    for _ in 0..count {
        templates.push(template)?;
    }
    Ok(templates)
}

/// Standard input and no file have no place in which a result goes, and changes are those of lines by themselves.
fn check<'w>(task: Task, settings: Settings<'w>, files: &[&'w str]) -> Result<(), Misuse<'w>> {
    if matches!(settings.target, Target::Files(_)) && (files.is_empty() || files.contains(&"-")) {
        return Err(Misuse::NoFiles);
    }
    if settings.preview && !is_by_line(task, settings) {
        return Err(Misuse::NoPreview);
    }
    Ok(())
}

/// Returns whether all matches in each line are replaced, whatever is in other lines.
fn is_by_line(task: Task, settings: Settings<'_>) -> bool {
    matches!(task, Task::Replace) && !settings.whole && settings.limit.is_none()
}
