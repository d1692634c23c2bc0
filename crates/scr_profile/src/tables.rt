//! The other tables of the standard formula, by maturity and by credit quality step.

/// The rise of interest rates by maturities of 1 to 100 years, in seventieths of a percent of the
/// rate: Delegated Regulation (EU) 2015/35, Article 166.
pub const INTEREST_UP: [u16; 100] = [
    4900, 4900, 4480, 4130, 3850, 3640, 3430, 3290, 3080, 2940, 2730, 2590, 2450, 2380, 2310, 2170,
    2100, 2030, 1890, 1820, 1814, 1808, 1802, 1796, 1790, 1784, 1778, 1772, 1766, 1760, 1754, 1748,
    1742, 1736, 1730, 1724, 1718, 1712, 1706, 1700, 1694, 1688, 1682, 1676, 1670, 1664, 1658, 1652,
    1646, 1640, 1634, 1628, 1622, 1616, 1610, 1604, 1598, 1592, 1586, 1580, 1574, 1568, 1562, 1556,
    1550, 1544, 1538, 1532, 1526, 1520, 1514, 1508, 1502, 1496, 1490, 1484, 1478, 1472, 1466, 1460,
    1454, 1448, 1442, 1436, 1430, 1424, 1418, 1412, 1406, 1400, 1400, 1400, 1400, 1400, 1400, 1400,
    1400, 1400, 1400, 1400,
];

/// Their fall by maturities of 1 to 100 years, in seventieths of a percent of the rate: Article
/// 167.
pub const INTEREST_DOWN: [u16; 100] = [
    5250, 4550, 3920, 3500, 3220, 2940, 2730, 2520, 2310, 2170, 2100, 2030, 1960, 1960, 1890, 1960,
    1960, 1960, 2030, 2030, 2021, 2012, 2003, 1994, 1985, 1976, 1967, 1958, 1949, 1940, 1931, 1922,
    1913, 1904, 1895, 1886, 1877, 1868, 1859, 1850, 1841, 1832, 1823, 1814, 1805, 1796, 1787, 1778,
    1769, 1760, 1751, 1742, 1733, 1724, 1715, 1706, 1697, 1688, 1679, 1670, 1661, 1652, 1643, 1634,
    1625, 1616, 1607, 1598, 1589, 1580, 1571, 1562, 1553, 1544, 1535, 1526, 1517, 1508, 1499, 1490,
    1481, 1472, 1463, 1454, 1445, 1436, 1427, 1418, 1409, 1400, 1400, 1400, 1400, 1400, 1400, 1400,
    1400, 1400, 1400, 1400,
];

/// The relative excess exposure threshold of market risk concentration by credit quality step, 0 to
/// 6, in thousandths: Delegated Regulation (EU) 2015/35, Article 185.
pub const CT: [u32; 7] = [30, 30, 30, 15, 15, 15, 15];

/// The risk factor of market risk concentration by credit quality step, 0 to 6, in hundredths:
/// Delegated Regulation (EU) 2015/35, Article 186.
pub const G: [u32; 7] = [12, 12, 21, 27, 73, 73, 73];

/// The probability of default by credit quality step, 0 to 6, in hundred-thousandths: Delegated
/// Regulation (EU) 2015/35, Article 199.
pub const PD: [u32; 7] = [2, 10, 50, 240, 1200, 4200, 4200];
