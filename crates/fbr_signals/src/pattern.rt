//! Which signals a pattern names.

/// What a pattern is compared with: the names of a device and a resource, and, where it is an instance, its path within the resource. Where the
/// system has one device, its name need not be said.
#[derive(Clone, Copy)]
pub(crate) struct Subject<'x> {
    pub(crate) is_alone: bool,
    pub(crate) device: &'x str,
    pub(crate) resource: &'x str,
    pub(crate) inner: Option<&'x str>,
}

/// A variable of an instance, or an element of one.
#[derive(Clone, Copy)]
pub(crate) struct Part<'x> {
    pub(crate) variable: &'x str,
    pub(crate) index: Option<i64>,
}

// What is behind a name and a dot.
fn behind<'p>(pattern: &'p str, name: &str) -> Option<&'p str> {
    pattern.strip_prefix(name)?.strip_prefix('.')
}

// Whether a path is this one, or a longer one that begins with it.
fn is_within(path: &str, around: &str) -> bool {
    match path.strip_prefix(around) {
        Some(rest) => rest.is_empty() || rest.starts_with('.'),
        None => false,
    }
}

// Whether this names an element: an index in brackets.
fn is_index(text: &str, index: Option<i64>) -> bool {
    let Some(wanted) = index else {
        return false;
    };
    let Some(opened) = text.strip_prefix('[') else {
        return false;
    };
    let Some(number) = opened.strip_suffix(']') else {
        return false;
    };
    number.parse::<i64>().ok() == Some(wanted)
}

impl Part<'_> {
    // Whether this names it.
    fn is_called(self, name: &str) -> bool {
        match name.strip_prefix(self.variable) {
            Some(rest) => rest.is_empty() || is_index(rest, self.index),
            None => false,
        }
    }
}

// Whether what is behind the names of a device and a resource covers an instance, or a part of it.
fn is_covered(rest: &str, inner: &str, part: Option<Part<'_>>) -> bool {
    if is_within(inner, rest) {
        return true;
    }
    match (part, behind(rest, inner)) {
        (Some(part), Some(name)) => part.is_called(name),
        _ => false,
    }
}

impl Subject<'_> {
    // Whether this names the instance or its part.
    fn names_instance(self, pattern: &str, inner: &str, part: Option<Part<'_>>) -> bool {
        if let Some(rest) = behind(pattern, self.device) {
            if is_covered(rest, inner, part) {
                return true;
            }
            if let Some(rest) = behind(rest, self.resource) {
                if is_covered(rest, inner, part) {
                    return true;
                }
            }
        }
        if !self.is_alone {
            return false;
        }
        if let Some(rest) = behind(pattern, self.resource) {
            if is_covered(rest, inner, part) {
                return true;
            }
        }
        is_covered(pattern, inner, part)
    }

    // Whether this names the resource.
    fn names_resource(self, pattern: &str) -> bool {
        (self.is_alone && pattern == self.resource)
            || behind(pattern, self.device) == Some(self.resource)
    }

    // Whether all within this is meant, which is a device, a resource or an instance.
    fn is_around(self, around: &str) -> bool {
        if around == self.device || self.names_resource(around) {
            return true;
        }
        match self.inner {
            Some(inner) => self.names_instance(around, inner, None),
            None => false,
        }
    }

    /// Whether a pattern in upper case names it, or a part of it: `*` for all, `PATH.*` for all within a device, a resource or an instance, and else the
    /// path of an instance, a variable, an element of an array, or a resource.
    pub(crate) fn is_meant(self, pattern: &str, part: Option<Part<'_>>) -> bool {
        if pattern == "*" {
            return true;
        }
        if let Some(around) = pattern.strip_suffix(".*") {
            return self.is_around(around);
        }
        match self.inner {
            Some(inner) => self.names_instance(pattern, inner, part),
            None => self.names_resource(pattern),
        }
    }
}
