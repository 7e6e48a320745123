//! What the words of the command line ask for.

// How the name of a picture ends.
const ENDING: &str = ".svg";

/// What the words ask for.
#[derive(Clone, Copy)]
pub(crate) enum Command<'a> {
    Help,
    Play(Wish<'a>),
}

/// A script to be played: of a file, or of standard input; and where a picture of it is to go, if anywhere.
#[derive(Clone, Copy)]
pub(crate) struct Wish<'a> {
    pub(crate) file: Option<&'a str>,
    pub(crate) picture: Option<&'a str>,
}

// What the words behind the program's name ask for; nothing if they are wrong.
pub(crate) fn asked_for(words: &[String]) -> Option<Command<'_>> {
    match words {
        [word] if word.as_str() == "--help" => Some(Command::Help),
        [word, picture, others @ ..] if word.as_str() == "--plot" => {
            play_pictured(others, picture.as_str())
        }
        files => play(files, None),
    }
}

// To play the script of a file, if one is named, with a picture. What is not named as a picture, or is the script itself, is not written over.
fn play_pictured<'a>(files: &'a [String], picture: &'a str) -> Option<Command<'a>> {
    let is_script = files.iter().any(|file| file.as_str() == picture);
    if names_picture(picture) && !is_script {
        play(files, Some(picture))
    } else {
        None
    }
}

// Whether a file is named as a picture: a name and its ending.
fn names_picture(path: &str) -> bool {
    path.ends_with(ENDING) && path.len() > ENDING.len()
}

// To play the script of a file, if one is named.
fn play<'a>(files: &'a [String], picture: Option<&'a str>) -> Option<Command<'a>> {
    match files {
        [] => Some(to_play(None, picture)),
        [file] if !file.starts_with('-') => Some(to_play(Some(file.as_str()), picture)),
        _ => None,
    }
}

fn to_play<'a>(file: Option<&'a str>, picture: Option<&'a str>) -> Command<'a> {
    Command::Play(Wish { file, picture })
}
