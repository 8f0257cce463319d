// Colours and letters: blue is promised, ink is measured, rust is missing; light and dark.

/// The style sheet of a chart.
pub(crate) const STYLE: &str = "<style>
text{font:120px system-ui,sans-serif}
.title{font-weight:600;font-size:150px}.algebra{font-family:ui-monospace,monospace}.end{font-weight:600}
.page{fill:#fbfbfa}.ink{fill:#1b1d1f}.soft{fill:#575c62}.promise{fill:#0b5cad}.missing{fill:#a5320f}
.grid,.axis{fill:none;stroke:#e0e1e0;stroke-width:10}.axis{stroke:#575c62}
.area{fill:#0b5cad;fill-opacity:.08}.bound{fill:none;stroke:#0b5cad;stroke-width:20;stroke-linejoin:round}
.point{fill:#1b1d1f;stroke:#fbfbfa;stroke-width:15}.ring{fill:none;stroke:#a5320f;stroke-width:15}
.halo{paint-order:stroke;stroke:#fbfbfa;stroke-width:40;stroke-linejoin:round}
@media(prefers-color-scheme:dark){
.page{fill:#15171a}.ink{fill:#e7e7e4}.soft{fill:#a7adb4}.promise{fill:#79b8f5}.missing{fill:#f39b7c}
.grid{stroke:#2c3034}.axis{stroke:#a7adb4}.area{fill:#79b8f5}.bound{stroke:#79b8f5}
.point{fill:#e7e7e4;stroke:#15171a}.ring{stroke:#f39b7c}.halo{stroke:#15171a}
}
</style>
";
