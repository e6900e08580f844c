//! A style to begin with: generated maps are loaded under it, and tests read it.

/// Cities and other points, lines and areas, in a font whose letters are half as wide as it is high.
pub const SAMPLE: &str = r#"version = 1
name = "name"
rank = "pop"

[fonts.sans]
units = 1000
default = 500
advances = { "i" = 250, "\u0301" = 0 }

[[class]]
geometry = "point"
key = "place"
value = "city"
font = "sans"
size = 20
priority = 1
min = "0"
max = "1000"

[[class]]
geometry = "point"
font = "sans"
size = 20
priority = 2
min = "0"
max = "1000"

[[class]]
geometry = "line"
font = "sans"
size = 20
priority = 3
ref = 1000
min = "0"
max = "2000"

[[class]]
geometry = "area"
font = "sans"
size = 20
priority = 4
min = "0"
max = "100000"
"#;
