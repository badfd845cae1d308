// Settings at both sides of each limit, their defaults, and which of two bad fields is told.
use station_settings::{CallerKey, Field, Settings, SettingsRefusal, read_settings};
use std::alloc::{AllocError, Global};

/// What the text is refused by.
fn refusal(rt: &HostRuntime, text: &[u8]) -> Option<Field> {
    match read_settings(rt.alloc(), text) {
        Err(SettingsRefusal::Bad(field)) => Some(field),
        _ => None,
    }
}

fn is_refused(rt: &HostRuntime, text: &[u8], name: &[u8]) -> bool {
    match refusal(rt, text) {
        Some(field) => field.name() == name,
        None => false,
    }
}

fn is_read(rt: &HostRuntime, text: &[u8]) -> bool {
    read_settings(rt.alloc(), text).is_ok()
}

const READ: [&str; 22] = [
    "name_min = 1",
    "name_min = 128",
    "name_max = 1",
    "name_max = 128",
    "name_max = 64\nname_min = 64",
    "max_nesting = 1",
    "max_nesting = 64",
    "max_statements = 1",
    "max_statements = 100_000",
    "global_prefix = ''",
    "global_prefix = 'g_123456789ABCDZ'",
    "disabled = []",
    "disabled = ['S01', 'S24', 'S01']",
    "caller = []",
    "[[caller]]\nname = 'ann'\nkey = '0123456789abcdef'",
    "caller = [{ key = '!~!~!~!~!~!~!~!~', name = '9._-' }]",
    "[[caller]]\nname = 'a'\nkey = '0123456789abcdef'\n[[caller]]\nname = 'A'\nkey = '0123456789abcdeF'",
    "",
    "# no settings",
    "max_nesting = 0x10",
    "'name_min' = 2",
    "disabled = [\"S07\"]\r\n",
];

const REFUSED: [(&str, &str); 44] = [
    ("name_min = 0", "name_min"),
    ("name_min = 129", "name_min"),
    ("name_min = -1", "name_min"),
    ("name_min = 4294967297", "name_min"),
    ("name_min = '1'", "name_min"),
    ("name_min = 1.0", "name_min"),
    ("name_max = 0", "name_max"),
    ("name_max = 129", "name_max"),
    ("name_max = 63\nname_min = 64", "name_max"),
    ("max_nesting = 0", "max_nesting"),
    ("max_nesting = 65", "max_nesting"),
    ("max_statements = 0", "max_statements"),
    ("max_statements = 100001", "max_statements"),
    ("global_prefix = 'g_123456789ABCDZ7'", "global_prefix"),
    ("global_prefix = 'g-'", "global_prefix"),
    ("global_prefix = 7", "global_prefix"),
    ("disabled = 'S01'", "disabled"),
    ("disabled = ['S00']", "disabled"),
    ("disabled = ['S01', 'S25']", "disabled"),
    ("disabled = ['s01']", "disabled"),
    ("disabled = ['S1']", "disabled"),
    ("disabled = ['S010']", "disabled"),
    ("disabled = [1]", "disabled"),
    ("[caller]\nname = 'ann'\nkey = '0123456789abcdef'", "caller"),
    ("caller = ['ann']", "caller"),
    ("[[caller]]\nname = 'ann'", "caller"),
    ("[[caller]]\nkey = '0123456789abcdef'", "caller"),
    (
        "[[caller]]\nname = 'ann'\nkey = '0123456789abcde'",
        "caller",
    ),
    (
        "[[caller]]\nname = 'ann'\nkey = '0123456789 abcdef'",
        "caller",
    ),
    (
        "[[caller]]\nname = 'ann'\nkey = '0123456789abcdef'\nage = 7",
        "caller",
    ),
    (
        "[[caller]]\nname = '.ann'\nkey = '0123456789abcdef'",
        "caller",
    ),
    ("[[caller]]\nname = 7\nkey = '0123456789abcdef'", "caller"),
    (
        "[[caller]]\nname = 'a'\nkey = '0123456789abcdef'\n[[caller]]\nname = 'a'\nkey = '0123456789abcdeF'",
        "caller",
    ),
    (
        "[[caller]]\nname = 'a'\nkey = '0123456789abcdef'\n[[caller]]\nname = 'A'\nkey = '0123456789abcdef'",
        "caller",
    ),
    ("aa = 1\nname_max = 0\nname_min = 0", "name_min"),
    ("disabled = 1\nglobal_prefix = 1", "global_prefix"),
    (
        "aa = 1\ncaller = 1\nmax_nesting = 0\nmax_statements = 0",
        "max_nesting",
    ),
    ("zz = 1\ncaller = 1", "caller"),
    ("zz = 1\nab = 2\nname_min = 3", "ab"),
    ("Name_min = 1\nname_Min = 1", "Name_min"),
    ("'' = 1\n'\t' = 1", ""),
    ("[waivers]\nname_min = 0", "waivers"),
    ("name_min = 1\nname_min = 1", "toml"),
    ("name_min = 0\n=", "toml"),
];

#[test]
fn limits(rt: HostRuntime) {
    for text in &READ {
        assert!(rt; is_read(&rt, text.as_bytes()), "{text}");
    }
    for (text, name) in &REFUSED {
        assert!(rt; is_refused(&rt, text.as_bytes(), name.as_bytes()), "{text}");
    }
    assert!(rt; is_refused(&rt, b"name_min = 0 # \xff", b"toml"));
}

fn are_defaults(settings: &Settings) -> bool {
    settings.name_min == 1
        && settings.name_max == 32
        && settings.max_nesting == 6
        && settings.max_statements == 500
        && settings.global_prefix.bytes().is_empty()
        && settings.disabled.as_slice() == [7].as_slice()
        && settings.callers.is_empty()
}

const WHOLE: &[u8] = b"name_min = 40
max_nesting = 7
max_statements = 8
global_prefix = 'g_'
disabled = ['S24', 'S09']
caller = [{ name = 'ann', key = '0123456789abcdef' }, { name = 'bob', key = 'fedcba9876543210' }]
";

fn is_whole(settings: &Settings) -> bool {
    settings.name_min == 40
        && settings.name_max == 40
        && settings.max_nesting == 7
        && settings.max_statements == 8
        && settings.global_prefix.bytes() == b"g_".as_slice()
        && settings.disabled.as_slice() == [24, 9].as_slice()
        && are_ann_and_bob(settings.callers.as_slice())
}

fn are_ann_and_bob(callers: &[CallerKey]) -> bool {
    match callers {
        [ann, bob] => {
            ann.name.bytes() == b"ann".as_slice()
                && ann.key.bytes() == b"0123456789abcdef".as_slice()
                && bob.name.bytes() == b"bob".as_slice()
                && bob.key.bytes() == b"fedcba9876543210".as_slice()
        }
        _ => false,
    }
}

#[test]
fn values(rt: HostRuntime) {
    let settings = read_settings(rt.alloc(), b"").expect(&rt, "settings");
    assert!(rt; are_defaults(&settings));
    let settings = read_settings(rt.alloc(), WHOLE).expect(&rt, "settings");
    assert!(rt; is_whole(&settings));
}

fn callers_text(alloc: Global, count: u32) -> Result<String, AllocError> {
    let mut text = String::new(alloc);
    for number in 0..count {
        let name = format!(in alloc; "[[caller]]\nname = 'a{number}'\n")?;
        let key = format!(in alloc; "key = '0123456789abcdef{number}'\n")?;
        text.push_str(name.as_str())?;
        text.push_str(key.as_str())?;
    }
    Ok(text)
}

fn caller_text(alloc: Global, name: usize, key: usize) -> Result<String, AllocError> {
    let name = "a".repeat(alloc, name)?;
    let key = "k".repeat(alloc, key)?;
    Ok(format!(in alloc; "[[caller]]\nname = '{name}'\nkey = '{key}'\n")?)
}

#[test]
fn callers_at_limits(rt: HostRuntime) {
    let alloc = rt.alloc();
    let most = callers_text(alloc, 64).expect(&rt, "memory");
    assert!(rt; is_read(&rt, most.as_bytes()));
    let too_many = callers_text(alloc, 65).expect(&rt, "memory");
    assert!(rt; is_refused(&rt, too_many.as_bytes(), b"caller"));
    let longest = caller_text(alloc, 64, 128).expect(&rt, "memory");
    assert!(rt; is_read(&rt, longest.as_bytes()));
    let long_name = caller_text(alloc, 65, 128).expect(&rt, "memory");
    assert!(rt; is_refused(&rt, long_name.as_bytes(), b"caller"));
    let long_key = caller_text(alloc, 64, 129).expect(&rt, "memory");
    assert!(rt; is_refused(&rt, long_key.as_bytes(), b"caller"));
}
